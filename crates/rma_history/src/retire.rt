//! Which of some chains of accesses are still kept.
ghost use Rattle.std.specs.Prelude.{◌≡◌, ◌↔◌, ◌⊎◌, ◌<◌, ◌≤◌, ℕ, List, Some, Contains, OnOk, length, slice_get};
ghost use Rattle.rma_link.specs.declared.links.Links.{Links};
ghost use Rattle.rma_rules.specs.Access.{Access};
ghost use Rattle.rma_chain.specs.Chain.{IsChain};
ghost use Rattle.rma_history.specs.History.{AreKnown, IsPassed};
ghost use Rattle.rma_history.specs.inside.Overlaps.{accesses_of};
ghost use Rattle.rma_history.specs.inside.Passed.{AreBehind};

use crate::horizon::Horizon;
use crate::overlaps::Overlaps;
use crate::passed::is_passed;
use rma_base::Memory;
use rma_chain::Chain;
use rma_clock::Clocks;
use rma_rules::{Access, Spans};
use rma_window::Windows;
use std::alloc::Global;

/// Of so many chains at most it is asked whether any of their accesses may go, before all are asked.
const SAMPLES: usize = 8;

/// Whether one of some chains, of those at even distances, has an access that is before all those which are still to come.
pub(crate) fn is_any_passed<C: Clocks>(
    alloc: Global,
    chains: &[Chain<'_>],
    next: &[Option<u32>],
    lists: &Spans,
    windows: &Windows,
    clocks: &C,
) -> Result<bool, Memory>
    requires { (points : List ℕ) × (links : Links) × C.are_of clocks.now points links × ((a : Access) → Contains (accesses_of chains.now) a → AreKnown points windows.now lists.now next.now a) }
{
    let mut horizon = Horizon::new(alloc, next.len())?;
    let mut index = 0;
    'samples: while index < chains.len() {
        let chain = chains[index].accesses();
        if count_passed(chain, next, lists, windows, clocks, &mut horizon) > 0 {
            return Ok(true);
        }
        index += chains.len() / SAMPLES + 1;
    }
    Ok(false)
}

/// Keeps of some chains the accesses that are not before all those which are still to come, and answers how many they are.
pub(crate) fn keep_others<'a, C: Clocks>(
    alloc: Global,
    mut chains: Vec<Chain<'a>>,
    kept: &mut Overlaps<'a>,
    next: &[Option<u32>],
    lists: &Spans,
    windows: &Windows,
    clocks: &C,
) -> Result<usize, Memory>
    requires { (points : List ℕ) × (links : Links) × C.are_of clocks.now points links × ((a : Access) → Contains (accesses_of chains.items) a → AreKnown points windows.now lists.now next.now a) }
    ensures kept { OnOk result ((a : Access) → Contains (accesses_of kept.new) a → Contains (accesses_of kept.old) a ⊎ Contains (accesses_of chains.entry.items) a) }
    ensures still { OnOk result ((a : Access) → Contains (accesses_of kept.old) a → Contains (accesses_of kept.new) a) }
    ensures gone { OnOk result ((points : List ℕ) (links : Links) → C.are_of clocks.now points links → ((a : Access) → Contains (accesses_of chains.entry.items) a → AreKnown points windows.now lists.now next.now a)
        → (a : Access) → Contains (accesses_of chains.entry.items) a → Contains (accesses_of kept.new) a ⊎ IsPassed links windows.now lists.now next.now a) }
{
    let mut horizon = Horizon::new(alloc, next.len())?;
    let mut count: usize = 0;
    'chains: while let Some(mut chain) = chains.pop() {
        let passed = count_passed(chain.accesses(), next, lists, windows, clocks, &mut horizon);
        chain.let_go(passed);
        count = count.saturating_add(chain.accesses().len());
        keep(alloc, chain, kept)?;
    }
    Ok(count)
}

/// Keeps a chain, if an access is left in it.
fn keep<'a>(alloc: Global, chain: Chain<'a>, kept: &mut Overlaps<'a>) -> Result<(), Memory>
    ensures { OnOk result ((a : Access) → Contains (accesses_of kept.new) a ↔ (Contains (accesses_of kept.old) a ⊎ Contains chain.entry a)) }
{
    let Some(_) = chain.accesses().first() else {
        return Ok(());
    };
    kept.begin(alloc, chain)
}

/// How many of the first of a chain are before all that are still to come, by a binary search.
fn count_passed<C: Clocks>(
    chain: &[Access<'_>],
    next: &[Option<u32>],
    lists: &Spans,
    windows: &Windows,
    clocks: &C,
    horizon: &mut Horizon,
) -> usize
    requires chain { IsChain chain.now }
    requires clocks { (points : List ℕ) × (links : Links) × C.are_of clocks.now points links × ((a : Access) → Contains chain.now a → AreKnown points windows.now lists.now next.now a) }
    ensures bound { result ≤ length chain.now }
    ensures passed { (points : List ℕ) (links : Links) → C.are_of clocks.now points links → ((a : Access) → Contains chain.now a → AreKnown points windows.now lists.now next.now a) → AreBehind links next.now horizon.old
        → (k : ℕ) (a : Access) → slice_get chain.now k ≡ Some a → k < result → IsPassed links windows.now lists.now next.now a }
    ensures behind { (points : List ℕ) (links : Links) → C.are_of clocks.now points links → ((a : Access) → Contains chain.now a → AreKnown points windows.now lists.now next.now a)
        → AreBehind links next.now horizon.old → AreBehind links next.now horizon.new }
{
    let mut low = 0;
    let mut high = chain.len();
    'search: while low < high {
        let middle = low + (high - low) / 2;
        if is_passed(&chain[middle], next, lists, windows, clocks, horizon) {
            low = middle + 1;
        } else {
            high = middle;
        }
    }
    low
}
