//! The races of an access with others, one by one.
ghost use Rattle.std.specs.Prelude.{◌≡◌, ◌↔◌, ◌⊎◌, ◌≤◌, ◌<◌, ◌++◌, ◌∷◌, ℕ, List, [], Some, Contains, length, slice_get, OnOk};
ghost use Rattle.rma_link.specs.declared.links.Links.{Links};
ghost use Rattle.rma_rules.specs.Access.{Access};
ghost use Rattle.rma_finding.specs.declared.finding.FoundRace.{FoundRace};
ghost use Rattle.rma_pairs.specs.Races.{IsFoundBetween};
ghost use Rattle.rma_chain.specs.Asked.{MayBeAsked};

use rma_base::Memory;
use rma_clock::Clocks;
use rma_finding::FoundRace;
use rma_pairs::race_between;
use rma_rules::{Access, Spans};
use rma_window::Windows;
use std::alloc::Global;

/// Adds what is found of an access with each of some others, from one index on and before another.
pub(crate) fn find_within<C: Clocks>(
    alloc: Global,
    others: &[Access<'_>],
    from: usize,
    to: usize,
    access: &Access<'_>,
    lists: &Spans,
    windows: &Windows,
    clocks: &C,
    found: &mut Vec<FoundRace>,
) -> Result<(), Memory>
    requires to { to ≤ length others.now }
    requires clocks { (points : List ℕ) × (links : Links) × C.are_of clocks.now points links × ((a : Access) → Contains others.now a → MayBeAsked points windows.now lists.now a access.now) }
    ensures { OnOk result ((points : List ℕ) (links : Links) → C.are_of clocks.now points links → ((a : Access) → Contains others.now a → MayBeAsked points windows.now lists.now a access.now)
        → (race : FoundRace) → Contains found.new.items race ↔ (Contains found.old.items race ⊎ ((k : ℕ) × (a : Access) × (from ≤ k) × (k < to) × (slice_get others.now k ≡ Some a) × IsFoundBetween links windows.now lists.now a access.now race))) }
{
    'others: for index in from..to {
        find_between(alloc, &others[index], access, lists, windows, clocks, found)?;
    }
    Ok(())
}

/// Adds what is found of two accesses, if they race.
fn find_between<C: Clocks>(
    alloc: Global,
    a: &Access<'_>,
    b: &Access<'_>,
    lists: &Spans,
    windows: &Windows,
    clocks: &C,
    found: &mut Vec<FoundRace>,
) -> Result<(), Memory>
    requires { (points : List ℕ) × (links : Links) × C.are_of clocks.now points links × MayBeAsked points windows.now lists.now a.now b.now }
    ensures { OnOk result ((points : List ℕ) (links : Links) → C.are_of clocks.now points links → MayBeAsked points windows.now lists.now a.now b.now
        → (race : FoundRace) → Contains found.new.items race ↔ (Contains found.old.items race ⊎ IsFoundBetween links windows.now lists.now a.now b.now race)) }
{
    match race_between(alloc, a, b, lists, windows, clocks)? {
        Some(race) => push(found, race),
        None => Ok(()),
    }
}

/// Adds a race.
fn push(found: &mut Vec<FoundRace>, race: FoundRace) -> Result<(), Memory>
    ensures { OnOk result (found.new.items ≡ found.old.items ++ race ∷ []) }
{
    found.push(race)?;
    Ok(())
}
