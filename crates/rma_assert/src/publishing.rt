//! The calls of a rank that publish its stores to a window.
ghost use Rattle.std.specs.Prelude.{◌≡◌, ◌<◌, ◌≤◌, ◌↔◌, ℕ, false, Some, Contains, length, slice_index};
ghost use Rattle.rma_base.specs.declared.line.LineNo.{LineNo};
ghost use Rattle.rma_rules.specs.Spans.{AreCalls};
ghost use Rattle.rma_assert.specs.inside.Stored.{SaysNostore};

use crate::asserting::assertions_of;
use rma_base::{LineNo, Rank};
use rma_call::CallList;
use rma_window::WindowId;

/// The calls of a rank, with those that publish its stores to a window.
#[derive(Clone, Copy, Debug)]
pub(crate) struct Publishing<'a> {
    /// The rank.
    pub(crate) rank: Rank,
    /// Its calls.
    pub(crate) calls: &'a CallList,
    /// The window.
    pub(crate) window: WindowId,
    /// The numbers of those that publish, ascending.
    pub(crate) published: &'a [u32],
}

/// Whether one of some calls says `nostore`.
pub(crate) fn any_says(calls: &CallList, numbers: &[u32]) -> bool
    ensures { result ≡ false → (number : ℕ) (line : LineNo) → Contains numbers.now number → SaysNostore calls.now.calls number line → ⊥ }
{
    for number in numbers {
        if nostore_line(calls, *number).is_some() {
            return true;
        }
    }
    false
}

/// The line of the call of a number, where it says `nostore`.
pub(crate) fn nostore_line(calls: &CallList, number: u32) -> Option<LineNo>
    ensures { (line : LineNo) → (result ≡ Some line) ↔ SaysNostore calls.now.calls number line }
{
    if number as usize >= calls.len() {
        return None;
    }
    let call = calls.get(number as usize);
    if assertions_of(call.what).nostore {
        Some(call.line)
    } else {
        None
    }
}

/// How many of these calls come before a call of the same rank.
pub(crate) fn count_before(calls: &[u32], call: u32) -> usize
    requires { AreCalls calls.now }
    ensures bound { result ≤ length calls.now }
    ensures before { (k : ℕ) → k < result → slice_index calls.now k < call }
    ensures after { (k : ℕ) → result ≤ k → k < length calls.now → call ≤ slice_index calls.now k }
{
    calls.partition_point(|v| *v < call)
}
