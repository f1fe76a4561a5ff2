//! The order of reports.
ghost use Rattle.std.specs.Prelude.{◌≡◌, ◌≢◌, ◌-◌, ◌++◌, ◌∷◌, [], false, length, slice_get, Contains, IfOk, OnOk, List};
ghost use Rattle.std.specs.Bool.{MatchBool};
ghost use Rattle.std.specs.Ordering.{is_lt};
ghost use Rattle.std.specs.List.Sorted.{IsPermutation, IsSorted};
ghost use Rattle.rma_concurrent.specs.Concurrent.{lock_order, post_order};
ghost use Rattle.rma_concurrent.specs.inside.Places.{IsInOrder, IsOrder};

use rma_base::Memory;
use rma_finding::{DoubledPost, ExposedLock};
use std::alloc::Global;
use std::cmp::Ordering;

/// What has an order in its reports.
pub(crate) trait Reported {
    ghost use Rattle.std.specs.Prelude.{◌≡◌};
    ghost use Rattle.std.specs.declared.cmp.Ordering.{Ordering};

    /// The order.
    ghost order: { Self → Self → Ordering };

    /// Which of two comes first.
    fn compare(&self, other: &Self) -> Ordering
        ensures { result ≡ order self.now other.now };
}

impl Reported for ExposedLock {
    ghost order = { lock_order };

    fn compare(&self, other: &Self) -> Ordering {
        let own = (self.rank.0, self.lock.0, self.target.0, self.opened.0);
        let others = (other.rank.0, other.lock.0, other.target.0, other.opened.0);
        own.cmp(&others)
            .then_with(|| self.window.bytes().cmp(&other.window.bytes()))
    }
}

impl Reported for DoubledPost {
    ghost order = { post_order };

    fn compare(&self, other: &Self) -> Ordering {
        let own = (self.target.0, self.post.0, self.opened.0);
        let others = (other.target.0, other.post.0, other.opened.0);
        own.cmp(&others)
            .then_with(|| self.window.bytes().cmp(&other.window.bytes()))
    }
}

/// Some reports in their order, each once.
///
/// # Errors
///
/// `Memory` where there is none left.
pub(crate) fn in_order<T: Reported + Drop>(
    alloc: Global,
    mut found: Vec<T>,
) -> Result<Vec<T>, Memory>
    ensures { IsOrder T.order → IfOk result (λ list. IsInOrder T.order found.items list.items) }
{
    sort(&mut found);
    each_once(alloc, found)
}

/// Sorts some reports.
fn sort<T: Reported + Drop>(found: &mut Vec<T>)
    ensures permutation { IsPermutation found.old.items found.new.items }
    ensures sorted { IsOrder T.order → IsSorted T.order found.new.items }
{
    found.sort_unstable_by(|a, b| a.compare(b));
}

/// Sorted reports, without those that stand behind an equal one.
fn each_once<T: Reported + Drop>(alloc: Global, sorted: Vec<T>) -> Result<Vec<T>, Memory>
    ensures { IsOrder T.order → IsSorted T.order sorted.items → IfOk result (λ list. IsInOrder T.order sorted.items list.items) }
{
    let mut out = Vec::new(alloc);
    for report in sorted {
        add_new(&mut out, report)?;
    }
    Ok(out)
}

/// Adds a report, unless the last one is equal to it.
fn add_new<T: Reported + Drop>(out: &mut Vec<T>, report: T) -> Result<(), Memory>
    ensures { OnOk result ((seen : List T) → IsOrder T.order → IsInOrder T.order seen out.old.items → ((x : T) → Contains seen x → is_lt (T.order report x) ≡ false) → IsInOrder T.order (seen ++ report ∷ []) out.new.items) }
{
    if is_new(out.as_slice(), &report) {
        out.push(report)?;
    }
    Ok(())
}

/// Whether the last of some reports is another one than this.
fn is_new<T: Reported>(out: &[T], report: &T) -> bool
    ensures { IsOrder T.order → MatchBool result ((x : T) → slice_get out.now (length out.now - 1) ≡ Some x → T.order x report.now ≢ Ordering.Equal) (Contains out.now report.now) }
{
    match out.last() {
        Some(last) => last.compare(report) != Ordering::Equal,
        None => true,
    }
}
