//! The points that a return waits for.
ghost use Rattle.std.specs.Prelude.{◌≡◌, ◌<◌, ◌^◌, [], Some, is_none, IfSome, OnOk};
ghost use Rattle.rma_match.specs.Source.{entry_at};
ghost use Rattle.rma_match.specs.inside.Awaited.{with_one};

use rma_base::{Memory, Point, Rank, Sequence};
use std::alloc::Global;
use std::marker::Model;

/// The points that a return waits for, as far as they are there.
#[derive(Drop)]
pub(crate) struct Awaited {
    /// Those that are there.
    points: Sequence<Point>,
    /// Whether any is not.
    lacking: bool,
}

impl Model for Awaited {
    ghost use Rattle.std.specs.Prelude.{List, Option, Some, None, if◌then◌else◌};
    ghost use Rattle.rma_base.specs.declared.point.Point.{Point};

    ghost Value = { Option (List Point) };

    ghost view = { λ awaited. if awaited.lacking then None else Some awaited.points };
}

impl Awaited {
    /// None.
    pub(crate) fn new(alloc: Global) -> Awaited
        ensures { result ≡ Some [] }
    {
        Awaited {
            points: Sequence::new(alloc),
            lacking: false,
        }
    }

    /// Adds a point, if it is there.
    pub(crate) fn add(&mut self, point: Option<Point>) -> Result<(), Memory>
        ensures { OnOk result (self.new ≡ with_one self.old point) }
    {
        match point {
            Some(point) => self.points.push(point),
            None => {
                self.lacking = true;
                Ok(())
            }
        }
    }

    /// Whether any point is not there.
    pub(crate) fn is_lacking(&self) -> bool
        ensures { result ≡ is_none self.now }
    {
        self.lacking
    }

    /// The points, where each of them is there.
    pub(crate) fn finish(self) -> Option<Sequence<Point>>
        ensures { result ≡ self }
    {
        if self.lacking {
            return None;
        }
        Some(self.points)
    }
}

/// Where a rank enters a call, if the call is there.
pub(crate) fn entry_at(rank: Rank, call: Option<u32>) -> Option<Point>
    ensures { IfSome call (λ number. number < 2 ^ 31) → result ≡ entry_at rank.0 call }
{
    match call {
        Some(number) => Some(Point {
            rank,
            pos: number.saturating_mul(2),
        }),
        None => None,
    }
}
