//! Where another access stands among those of a chain.
ghost use Rattle.std.specs.Prelude.{◌≡◌, ◌<◌, ◌≤◌, ℕ, List, Some, Contains, length, slice_get};
ghost use Rattle.rma_link.specs.declared.links.Links.{Links};
ghost use Rattle.rma_rules.specs.Access.{Access};
ghost use Rattle.rma_rules.specs.Before.{Before};
ghost use Rattle.rma_chain.specs.Asked.{MayBeAsked};
ghost use Rattle.rma_chain.specs.Chain.{IsChain};

use rma_clock::Clocks;
use rma_rules::{Access, Spans, before};
use rma_window::Windows;

/// How many of a chain are before an access: the last is asked first, since where it is before the access, all are.
pub(crate) fn count_before<C: Clocks>(
    chain: &[Access<'_>],
    access: &Access<'_>,
    lists: &Spans,
    windows: &Windows,
    clocks: &C,
) -> usize
    requires chain { IsChain chain.now }
    requires clocks { (points : List ℕ) × (links : Links) × C.are_of clocks.now points links × ((a : Access) → Contains chain.now a → MayBeAsked points windows.now lists.now a access.now) }
    ensures bound { result ≤ length chain.now }
    ensures before { (points : List ℕ) (links : Links) → C.are_of clocks.now points links → ((a : Access) → Contains chain.now a → MayBeAsked points windows.now lists.now a access.now)
        → (k : ℕ) (a : Access) → slice_get chain.now k ≡ Some a → k < result → Before links windows.now lists.now a access.now }
    ensures not_before { (points : List ℕ) (links : Links) → C.are_of clocks.now points links → ((a : Access) → Contains chain.now a → MayBeAsked points windows.now lists.now a access.now)
        → (k : ℕ) (a : Access) → slice_get chain.now k ≡ Some a → result ≤ k → ¬ Before links windows.now lists.now a access.now }
{
    match chain.last() {
        Some(last) if before(last, access, lists, windows, clocks) => chain.len(),
        _ => search_before(chain, access, lists, windows, clocks),
    }
}

/// The same by a binary search.
fn search_before<C: Clocks>(
    chain: &[Access<'_>],
    access: &Access<'_>,
    lists: &Spans,
    windows: &Windows,
    clocks: &C,
) -> usize
    requires chain { IsChain chain.now }
    requires clocks { (points : List ℕ) × (links : Links) × C.are_of clocks.now points links × ((a : Access) → Contains chain.now a → MayBeAsked points windows.now lists.now a access.now) }
    ensures bound { result ≤ length chain.now }
    ensures before { (points : List ℕ) (links : Links) → C.are_of clocks.now points links → ((a : Access) → Contains chain.now a → MayBeAsked points windows.now lists.now a access.now)
        → (k : ℕ) (a : Access) → slice_get chain.now k ≡ Some a → k < result → Before links windows.now lists.now a access.now }
    ensures not_before { (points : List ℕ) (links : Links) → C.are_of clocks.now points links → ((a : Access) → Contains chain.now a → MayBeAsked points windows.now lists.now a access.now)
        → (k : ℕ) (a : Access) → slice_get chain.now k ≡ Some a → result ≤ k → ¬ Before links windows.now lists.now a access.now }
{
    let mut low = 0;
    let mut high = chain.len();
    'search: while low < high {
        let middle = low + (high - low) / 2;
        if before(&chain[middle], access, lists, windows, clocks) {
            low = middle + 1;
        } else {
            high = middle;
        }
    }
    low
}

/// The index of the first of a chain that an access is before, by a binary search.
pub(crate) fn first_after<C: Clocks>(
    chain: &[Access<'_>],
    access: &Access<'_>,
    lists: &Spans,
    windows: &Windows,
    clocks: &C,
) -> usize
    requires chain { IsChain chain.now }
    requires clocks { (points : List ℕ) × (links : Links) × C.are_of clocks.now points links × ((a : Access) → Contains chain.now a → MayBeAsked points windows.now lists.now a access.now) }
    ensures bound { result ≤ length chain.now }
    ensures after { (points : List ℕ) (links : Links) → C.are_of clocks.now points links → ((a : Access) → Contains chain.now a → MayBeAsked points windows.now lists.now a access.now)
        → (k : ℕ) (a : Access) → slice_get chain.now k ≡ Some a → result ≤ k → Before links windows.now lists.now access.now a }
    ensures not_after { (points : List ℕ) (links : Links) → C.are_of clocks.now points links → ((a : Access) → Contains chain.now a → MayBeAsked points windows.now lists.now a access.now)
        → (k : ℕ) (a : Access) → slice_get chain.now k ≡ Some a → k < result → ¬ Before links windows.now lists.now access.now a }
{
    let mut low = 0;
    let mut high = chain.len();
    'search: while low < high {
        let middle = low + (high - low) / 2;
        if before(access, &chain[middle], lists, windows, clocks) {
            high = middle;
        } else {
            low = middle + 1;
        }
    }
    low
}
