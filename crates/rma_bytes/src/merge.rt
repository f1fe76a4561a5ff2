//! A set made of blocks in any order.
ghost use Rattle.std.specs.Prelude.{◌≡◌, ℕ, ◌+◌, ◌≤◌, min, length, IfOk, OnOk, IsOk, IsTrue, ◌↔◌};
ghost use Rattle.std.specs.List.{All};
ghost use Rattle.std.specs.List.Sorted.{IsPermutation};
ghost use Rattle.smallvec.specs.SmallVec.{HasRoomFor};
ghost use Rattle.rma_bytes.specs.Runs.{SameBytes, IsInBounds, IsCanonical};
ghost use Rattle.rma_bytes.specs.inside.Walks.{Ascend, kept};

use crate::run::{Run, end, hull};
use rma_base::Memory;
use smallvec::SmallVec;
use std::alloc::Global;

/// No run within the bounds starts before this number.
const LOWEST: i64 = -562_949_953_421_312;

/// Puts the run after the others, unless it is empty.
pub(crate) fn keep(runs: &mut SmallVec<Run, 4>, run: Run) -> Result<(), Memory>
    ensures ok { OnOk result (runs.new.items ≡ kept runs.old.items run) }
    ensures room { HasRoomFor runs.old (min 1 run.len) → IsOk result }
    ensures capacity { runs.old.capacity ≤ runs.new.capacity }
{
    if run.len > 0 {
        runs.push(run)?;
    }
    Ok(())
}

/// Whether the blocks ascend by their starts.
fn ascend(blocks: &[Run]) -> bool
    requires { All IsInBounds blocks.now }
    ensures { IsTrue result ↔ Ascend blocks.now }
{
    let mut start = LOWEST;
    'each: for block in blocks {
        if block.start < start {
            return false;
        }
        start = block.start;
    }
    true
}

/// Sorts the blocks by their starts.
fn sort(blocks: &mut [Run])
    requires { All IsInBounds blocks.old }
    ensures ascend { Ascend blocks.new }
    ensures permutation { IsPermutation blocks.old blocks.new }
    ensures len { length blocks.new ≡ length blocks.old }
{
    blocks.sort_unstable_by_key(|block| block.start);
}

/// The set of the bytes of ascending blocks: each block joins the last run where the two overlap or touch.
fn merged(alloc: Global, blocks: &[Run]) -> Result<SmallVec<Run, 4>, Memory>
    requires bounds { All IsInBounds blocks.now }
    requires ascend { Ascend blocks.now }
    ensures bytes { IfOk result (λ runs. SameBytes runs.items blocks.now) }
    ensures canonical { IfOk result (λ runs. IsCanonical runs.items) }
    ensures short { length blocks.now ≤ 4 → IsOk result }
{
    let mut runs = SmallVec::new(alloc);
    let mut last = Run {
        start: LOWEST,
        len: 0,
    };
    'each: for block in blocks {
        if block.start <= end(last) {
            last = hull(last, *block);
        } else {
            keep(&mut runs, last)?;
            last = *block;
        }
    }
    keep(&mut runs, last)?;
    Ok(runs)
}

/// The blocks sorted by their starts.
fn sorted(alloc: Global, blocks: &[Run]) -> Result<SmallVec<Run, 4>, Memory>
    requires { All IsInBounds blocks.now }
    ensures ascend { IfOk result (λ runs. Ascend runs.items) }
    ensures permutation { IfOk result (λ runs. IsPermutation blocks.now runs.items) }
    ensures short { length blocks.now ≤ 4 → IsOk result }
{
    let mut copy: SmallVec<Run, 4> = SmallVec::from_slice(alloc, blocks)?;
    sort(copy.as_mut_slice());
    Ok(copy)
}

/// The set of the bytes of the blocks.
pub(crate) fn union(alloc: Global, blocks: &[Run]) -> Result<SmallVec<Run, 4>, Memory>
    requires { All IsInBounds blocks.now }
    ensures bytes { IfOk result (λ runs. SameBytes runs.items blocks.now) }
    ensures canonical { IfOk result (λ runs. IsCanonical runs.items) }
    ensures short { length blocks.now ≤ 4 → IsOk result }
{
    if ascend(blocks) {
        merged(alloc, blocks)
    } else {
        merged(alloc, sorted(alloc, blocks)?.as_slice())
    }
}
