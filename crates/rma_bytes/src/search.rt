//! One run against a set.
ghost use Rattle.std.specs.Prelude.{◌≡◌, ℕ, ◌<◌, ◌≤◌, length, ℤ, ◌≤ℤ◌, ◌<ℤ◌, ◌↔◌, IsTrue, slice_index_or};
ghost use Rattle.rma_bytes.specs.declared.run.Run.{Run};
ghost use Rattle.rma_bytes.specs.Runs.{end_of, HasByte, IsByteOf, IsCanonical};

use crate::run::{Run, capped_end, end};

/// The index of the first run that ends after `at`.
fn first_after(runs: &[Run], at: i64) -> usize
    requires { IsCanonical runs.now }
    ensures bound { result ≤ length runs.now }
    ensures before { (k : ℕ) (d : Run) → k < result → end_of (slice_index_or runs.now k d) ≤ℤ at }
    ensures after { (k : ℕ) (d : Run) → result ≤ k → k < length runs.now → at <ℤ end_of (slice_index_or runs.now k d) }
{
    runs.partition_point(|run| capped_end(*run) <= at)
}

/// Whether a byte of the set lies in the run.
pub(crate) fn touches(runs: &[Run], run: Run) -> bool
    requires { IsCanonical runs.now }
    ensures { IsTrue result ↔ ((b : ℤ) × HasByte runs.now b × IsByteOf run b) }
{
    if run.len == 0 {
        return false;
    }
    let i = first_after(runs, run.start);
    i < runs.len() && runs[i].start < capped_end(run)
}

/// Whether each byte of the set lies in the run.
pub(crate) fn lies_within(runs: &[Run], run: Run) -> bool
    requires { IsCanonical runs.now }
    ensures { IsTrue result ↔ ((b : ℤ) → HasByte runs.now b → IsByteOf run b) }
{
    if runs.is_empty() {
        return true;
    }
    run.start <= runs[0].start && end(runs[runs.len() - 1]) <= capped_end(run)
}
