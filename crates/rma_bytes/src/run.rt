//! Bytes side by side: where they end, and what two runs make.
ghost use Rattle.std.specs.Int.{int_min};
ghost use Rattle.std.specs.Prelude.{◌≡◌, ◌-◌, ◌^◌, ℤ, pos, ◌≤ℤ◌, ◌<ℤ◌, ◌<◌, ◌↔◌, ◌⊎◌, IsTrue};
ghost use Rattle.rma_bytes.specs.Runs.{end_of, IsByteOf, IsInBounds, moved};

/// Bytes side by side.
#[derive(Clone, Copy, Debug, Default, PartialEq, Eq)]
pub struct Run {
    /// The address of the first byte.
    pub start: i64,
    /// The number of bytes. A run without one is empty wherever it starts.
    pub len: u64,
}

/// The first number after the bytes of the run.
pub(crate) fn end(run: Run) -> i64
    requires { IsInBounds run }
    ensures { result ≡ end_of run }
{
    run.start + run.len as i64
}

/// The end of any run, or the greatest number of its type where the end lies beyond it.
pub(crate) fn capped_end(run: Run) -> i64
    ensures { result ≡ int_min (end_of run) (pos (2 ^ 63 - 1)) }
{
    run.start.saturating_add_unsigned(run.len)
}

/// The run moved by a distance.
pub(crate) fn moved(run: Run, by: i64) -> Run
    requires { IsInBounds (moved by run) }
    ensures { result ≡ moved by run }
{
    Run {
        start: run.start + by,
        ..run
    }
}

/// The run from the start of `first` to the later of the two ends.
pub(crate) fn hull(first: Run, second: Run) -> Run
    requires first { IsInBounds first }
    requires second { IsInBounds second }
    requires in_order { first.start ≤ℤ second.start }
    requires joined { second.start ≤ℤ end_of first }
    ensures start { result.start ≡ first.start }
    ensures bounds { IsInBounds result }
    ensures bytes { (b : ℤ) → IsByteOf result b ↔ (IsByteOf first b ⊎ IsByteOf second b) }
{
    let last = end(first).max(end(second));
    Run {
        start: first.start,
        len: (last - first.start) as u64,
    }
}

/// The bytes that both runs have.
pub(crate) fn overlap(one: Run, two: Run) -> Run
    requires one { IsInBounds one }
    requires two { IsInBounds two }
    ensures bounds { IsInBounds result }
    ensures bytes { (b : ℤ) → IsByteOf result b ↔ (IsByteOf one b × IsByteOf two b) }
{
    let start = one.start.max(two.start);
    let last = end(one).min(end(two));
    Run {
        start,
        len: (last - start).max(0) as u64,
    }
}
