//! Of each call for each reason the first report, in order.
ghost use Rattle.std.specs.Prelude.{◌≡◌, ◌-◌, ◌++◌, ◌∷◌, [], false, true, length, slice_get, Some, Contains, IfOk, OnOk, List};
ghost use Rattle.std.specs.Ordering.{is_lt};
ghost use Rattle.std.specs.Bool.{MatchBool};
ghost use Rattle.std.specs.declared.cmp.Ordering.{Ordering};
ghost use Rattle.std.specs.List.Sorted.{IsPermutation, IsSorted};
ghost use Rattle.rma_assert.specs.declared.assertion.BrokenAssertion.{BrokenAssertion};
ghost use Rattle.rma_assert.specs.Broken.{assertion_order, call_order};
ghost use Rattle.rma_assert.specs.Reason.{reason_place};
ghost use Rattle.rma_assert.specs.inside.Gathered.{AreFirstOf, is_same_call};

use crate::assertion::{AssertionReason, BrokenAssertion};
use rma_base::Memory;
use std::alloc::Global;

/// Of some reports the first of each call for each reason, in order.
///
/// # Errors
///
/// `Memory` where there is none left.
pub(crate) fn firsts(
    alloc: Global,
    mut found: Vec<BrokenAssertion>,
) -> Result<Vec<BrokenAssertion>, Memory>
    ensures { IfOk result (λ list. AreFirstOf found.items list.items) }
{
    sort(&mut found);
    each_first(alloc, &found)
}

/// Sorts reports.
fn sort(found: &mut Vec<BrokenAssertion>)
    ensures permutation { IsPermutation found.old.items found.new.items }
    ensures sorted { IsSorted assertion_order found.new.items }
{
    found.sort_unstable_by_key(|own| {
        (
            reason_place(own.reason),
            own.rank.0,
            own.line.0,
            own.other.0.0,
            own.other.1.0,
        )
    });
}

/// The place of a reason among the reasons.
fn reason_place(reason: AssertionReason) -> u32
    ensures { result ≡ reason_place reason }
{
    match reason {
        AssertionReason::NocheckAlone => 0,
        AssertionReason::NocheckUnordered => 1,
        AssertionReason::Nostore => 2,
        AssertionReason::Noput => 3,
        AssertionReason::NocheckLock => 4,
    }
}

/// Sorted reports, without those that stand behind one of the same call and reason.
fn each_first(alloc: Global, sorted: &[BrokenAssertion]) -> Result<Vec<BrokenAssertion>, Memory>
    requires { IsSorted assertion_order sorted.now }
    ensures { IfOk result (λ list. AreFirstOf sorted.now list.items) }
{
    let mut out = Vec::new(alloc);
    for report in sorted {
        add_first(&mut out, *report)?;
    }
    Ok(out)
}

/// Adds a report, unless the last one is of the same call and reason.
fn add_first(out: &mut Vec<BrokenAssertion>, report: BrokenAssertion) -> Result<(), Memory>
    ensures { OnOk result ((seen : List BrokenAssertion) → AreFirstOf seen out.old.items → ((x : BrokenAssertion) → Contains seen x → is_lt (assertion_order report x) ≡ false) → AreFirstOf (seen ++ report ∷ []) out.new.items) }
{
    if is_first(out.as_slice(), &report) {
        out.push(report)?;
    }
    Ok(())
}

/// Whether the last of some reports is of another call or reason than this.
fn is_first(out: &[BrokenAssertion], report: &BrokenAssertion) -> bool
    ensures { MatchBool result ((x : BrokenAssertion) → slice_get out.now (length out.now - 1) ≡ Some x → is_same_call x report.now ≡ false)
        ((x : BrokenAssertion) × Contains out.now x × (is_same_call x report.now ≡ true)) }
{
    match out.last() {
        Some(last) => !is_same_call(last, report),
        None => true,
    }
}

/// Whether two reports are of one call and reason.
fn is_same_call(a: &BrokenAssertion, b: &BrokenAssertion) -> bool
    ensures { result ≡ is_same_call a.now b.now }
{
    reason_place(a.reason) == reason_place(b.reason)
        && (a.rank.0 == b.rank.0 && a.line.0 == b.line.0)
}
