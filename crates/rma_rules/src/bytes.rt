//! The bytes of accesses.
ghost use Rattle.std.specs.Prelude.{◌≡◌, ◌<◌, ◌≤◌, ◌≤ℤ◌, ◌<ℤ◌, ℕ, length, map, [], IfSome, IsSome, IsTrue, ◌↔◌, slice_get, slice_index_or, Some};
ghost use Rattle.rma_bytes.specs.declared.run.Run.{Run};
ghost use Rattle.rma_bytes.specs.Runs.{end_of, IsCanonical, IsInBounds, moved};
ghost use Rattle.rma_rules.specs.Share.{LiesIn, MeetsRun, ShareByte};

use crate::walk::{clash, end};
use rma_bytes::{Layout, MovedLayout, Run};
use std::marker::Model;

/// The bytes that an access touches: those of a layout, moved by a distance. No list is copied. Contracts see them as the one
/// ascending list of runs that has them.
#[derive(Debug, Drop)]
pub struct Bytes<'a> {
    /// The layout.
    layout: MovedLayout<'a>,
    /// How far it is moved, in bytes.
    by: i64,
}

impl<'a> Model for Bytes<'a> {
    ghost use Rattle.std.specs.Prelude.{List, map};
    ghost use Rattle.rma_bytes.specs.declared.run.Run.{Run};
    ghost use Rattle.rma_bytes.specs.Runs.{IsCanonical, moved};

    ghost Value = { List Run };

    ghost view = { λ own. map (moved own.by) own.layout.runs };

    ghost invariant = { λ own. IsCanonical own.layout.runs × IsCanonical (map (moved own.by) own.layout.runs) };
}

impl<'a> Bytes<'a> {
    /// The bytes of a buffer, where it stands, if its runs ascend apart, have bytes, and lie within the bounds of a run: those of a
    /// buffer in the space of addresses do. One walk over the runs tells.
    pub fn checked(buffer: MovedLayout<'a>) -> Option<Bytes<'a>>
        ensures value { IfSome result (λ bytes. bytes ≡ buffer.entry.runs) }
        ensures found { IsSome result ↔ IsCanonical buffer.entry.runs }
    {
        if are_canonical(&buffer) {
            Some(Bytes::of_buffer(buffer))
        } else {
            None
        }
    }

    /// The bytes of a buffer, where it stands.
    pub fn of_buffer(buffer: MovedLayout<'a>) -> Bytes<'a>
        requires { IsCanonical buffer.runs }
        ensures { result ≡ buffer.entry.runs }
    {
        Bytes {
            layout: buffer,
            by: 0,
        }
    }

    /// The bytes of what is accessed at a target, moved by a distance in bytes: the base of the target's part of the window, and
    /// the displacement of the access times its unit.
    pub fn of_target(layout: &'a Layout, by: i64) -> Bytes<'a>
        requires { IsCanonical (map (moved by) layout.now.runs) }
        ensures { result ≡ map (moved by) layout.now.runs }
    {
        let _in_order = layout.is_empty();
        Bytes {
            layout: MovedLayout::unmoved(layout),
            by,
        }
    }

    /// The number of runs.
    pub fn len(&self) -> usize
        ensures value { result ≡ length self.now }
        ensures canonical { IsCanonical self.now }
    {
        self.layout.len()
    }

    /// Whether there is no byte.
    pub fn is_empty(&self) -> bool
        ensures { IsTrue result ↔ (self.now ≡ []) }
    {
        self.len() == 0
    }

    /// The run at an index, from 0, in ascending order.
    pub fn get(&self, i: usize) -> Run
        requires { i < length self.now }
        ensures { slice_get self.now i ≡ Some result }
    {
        let run = self.layout.get(i);
        Run {
            start: run.start + self.by,
            ..run
        }
    }

    /// Whether both have a byte in common, in one walk over the two lists.
    pub fn meets(&self, other: &Bytes<'_>) -> bool
        ensures { IsTrue result ↔ ShareByte self.now other.now }
    {
        clash(self, other, None)
    }

    /// Whether a byte lies in the run, by a binary search.
    pub fn meets_run(&self, run: Run) -> bool
        ensures { IsTrue result ↔ MeetsRun self.now run }
    {
        if run.len == 0 {
            return false;
        }
        let i = self.first_after(run.start);
        i < self.len() && self.get(i).start < run.start.saturating_add_unsigned(run.len)
    }

    /// Whether each byte lies in the run. Only the first and the last run are looked at.
    pub fn inside(&self, run: Run) -> bool
        ensures { IsTrue result ↔ LiesIn self.now run }
    {
        if self.is_empty() {
            return true;
        }
        let first = self.get(0);
        let last = self.get(self.len() - 1);
        run.start <= first.start && end(last) <= run.start.saturating_add_unsigned(run.len)
    }

    /// The index of the first run that ends after an address.
    fn first_after(&self, at: i64) -> usize
        ensures bound { result ≤ length self.now }
        ensures before { (k : ℕ) (d : Run) → k < result → end_of (slice_index_or self.now k d) ≤ℤ at }
        ensures after { (k : ℕ) (d : Run) → result ≤ k → k < length self.now → at <ℤ end_of (slice_index_or self.now k d) }
    {
        let mut low = 0;
        let mut high = self.len();
        'search: while low < high {
            let middle = low + (high - low) / 2;
            if end(self.get(middle)) <= at {
                low = middle + 1;
            } else {
                high = middle;
            }
        }
        low
    }
}

/// No run within the bounds starts before this number or at it.
const BELOW: i64 = -562_949_953_421_313;

/// No run within the bounds ends after this number.
const HIGHEST: i64 = 562_949_953_421_312;

/// Whether the runs of a buffer ascend apart, have bytes, and lie within the bounds.
fn are_canonical(buffer: &MovedLayout<'_>) -> bool
    ensures { IsTrue result ↔ IsCanonical buffer.now.runs }
{
    let mut last = BELOW;
    'runs: for i in 0..buffer.len() {
        let run = buffer.get(i);
        if !may_follow(last, run) {
            return false;
        }
        last = end(run);
    }
    true
}

/// Whether a run has bytes, lies within the bounds and begins after this number.
fn may_follow(last: i64, run: Run) -> bool
    requires { BELOW ≤ℤ last }
    ensures { IsTrue result ↔ ((last <ℤ run.start) × IsInBounds run × (0 < run.len)) }
{
    if run.start <= last {
        return false;
    }
    if HIGHEST <= run.start {
        return false;
    }
    0 < run.len && run.len <= (HIGHEST - run.start) as u64
}
