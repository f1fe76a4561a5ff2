//! Sets of bytes that share their runs.
ghost use Rattle.std.specs.Prelude.{◌≡◌, ◌<◌, ◌≤◌, length, map, ℤ, ◌+ℤ◌, IfOk, IsOk, slice_get, Some};
ghost use Rattle.rma_bytes.specs.Runs.{HasByte, IsCanonical, IsWithinBounds, moved};

use crate::run::{Run, moved};
use crate::runs::Runs;
use rma_base::Memory;
use std::alloc::Global;
use std::marker::Model;
use std::rc::Rc;

/// A set of bytes. Contracts see it as the runs of the set. A single run lies in the value itself; more are shared by all regions
/// that differ by a distance alone.
#[derive(Debug, Drop)]
pub(crate) struct Region {
    stored: Stored,
}

/// How a region is stored.
#[derive(Debug, Drop)]
enum Stored {
    /// No byte.
    Empty,
    /// Bytes side by side.
    One(Run),
    /// Several runs, and how far each of them is moved.
    Several { runs: Rc<Runs>, by: i64 },
}

impl Model for Region {
    ghost use Rattle.std.specs.Prelude.{List};
    ghost use Rattle.rma_bytes.specs.declared.run.Run.{Run};
    ghost use Rattle.rma_bytes.specs.inside.Region.{IsStored, runs_in};

    ghost Value = { List Run };

    ghost view = { λ region. runs_in region.stored };

    ghost invariant = { λ region. IsStored region.stored };
}

impl Region {
    /// The region of these bytes. Bytes side by side take no memory.
    pub(crate) fn from_runs(alloc: Global, runs: Runs) -> Result<Region, Memory>
        ensures same { IfOk result (λ region. region ≡ runs) }
        ensures short { length runs < 2 → IsOk result }
    {
        match runs.len() {
            0 => Ok(Region {
                stored: Stored::Empty,
            }),
            1 => Ok(Region {
                stored: Stored::One(runs.get(0)),
            }),
            _ => Ok(Region::several(Rc::new(alloc, runs)?, 0)),
        }
    }

    /// The region of several runs, each moved by a distance.
    fn several(runs: Rc<Runs>, by: i64) -> Region
        requires several { 2 ≤ length runs.value }
        requires canonical { IsCanonical runs.value }
        requires within { IsCanonical (map (moved by) runs.value) }
        ensures { result ≡ map (moved by) runs.value }
    {
        Region {
            stored: Stored::Several { runs, by },
        }
    }

    /// The region with each byte moved by a distance, which must leave the bytes within the bounds. It takes no memory.
    pub(crate) fn moved(&self, by: i64) -> Result<Region, Memory>
        requires { (b : ℤ) → HasByte self.now b → IsWithinBounds (b +ℤ by) }
        ensures moved { IfOk result (λ region. region ≡ map (moved by) self.now) }
        ensures short { length self.now < 2 → IsOk result }
    {
        match &self.stored {
            Stored::Empty => Ok(Region {
                stored: Stored::Empty,
            }),
            Stored::One(run) => Ok(Region {
                stored: Stored::One(moved(*run, by)),
            }),
            Stored::Several { runs, by: so_far } => {
                let sum = so_far + by;
                Ok(Region::several(runs.clone()?, sum))
            }
        }
    }

    /// The number of runs.
    pub(crate) fn len(&self) -> usize
        ensures { result ≡ length self.now }
    {
        match &self.stored {
            Stored::Empty => 0,
            Stored::One(_) => 1,
            Stored::Several { runs, .. } => runs.len(),
        }
    }

    /// The run at an index, from 0, in ascending order.
    pub(crate) fn get(&self, i: usize) -> Run
        requires { i < length self.now }
        ensures { slice_get self.now i ≡ Some result }
    {
        match &self.stored {
            Stored::Empty => unreachable!(),
            Stored::One(run) => *run,
            Stored::Several { runs, by } => moved(runs.get(i), *by),
        }
    }
}
