//! Searches among some chains.
ghost use Rattle.std.specs.Prelude.{◌↔◌, ◌⊎◌, ◌<◌, ℕ, List, Contains, IfSome, OnOk, length};
ghost use Rattle.rma_link.specs.declared.links.Links.{Links};
ghost use Rattle.rma_rules.specs.Access.{Access};
ghost use Rattle.rma_finding.specs.declared.finding.FoundRace.{FoundRace};
ghost use Rattle.rma_chain.specs.Asked.{MayBeAsked};
ghost use Rattle.rma_history.specs.inside.Overlaps.{IsFoundAt, IsHome, accesses_of};

use rma_base::Memory;
use rma_chain::Chain;
use rma_clock::Clocks;
use rma_finding::FoundRace;
use rma_rules::{Access, Spans};
use rma_window::Windows;
use std::alloc::Global;

/// Adds what is found of an access with those of the chains at some indices.
pub(crate) fn find_among<C: Clocks>(
    alloc: Global,
    chains: &[Chain<'_>],
    indices: &[u32],
    access: &Access<'_>,
    lists: &Spans,
    windows: &Windows,
    clocks: &C,
    found: &mut Vec<FoundRace>,
) -> Result<(), Memory>
    requires bound { (i : ℕ) → Contains indices.now i → i < length chains.now }
    requires clocks { (points : List ℕ) × (links : Links) × C.are_of clocks.now points links × ((a : Access) → Contains (accesses_of chains.now) a → MayBeAsked points windows.now lists.now a access.now) }
    ensures { OnOk result ((points : List ℕ) (links : Links) → C.are_of clocks.now points links → ((a : Access) → Contains (accesses_of chains.now) a → MayBeAsked points windows.now lists.now a access.now)
        → (race : FoundRace) → Contains found.new.items race ↔ (Contains found.old.items race
        ⊎ ((i : ℕ) × Contains indices.now i × IsFoundAt links windows.now lists.now chains.now access.now race i))) }
{
    'indices: for index in indices {
        chains[*index as usize].find(alloc, access, lists, windows, clocks, found)?;
    }
    Ok(())
}

/// The index of a chain that an access may be added to, among those at some indices, if there is one.
pub(crate) fn home_of(chains: &[Chain<'_>], indices: &[u32], access: &Access<'_>) -> Option<usize>
    requires { (i : ℕ) → Contains indices.now i → i < length chains.now }
    ensures { IfSome result (λ i. IsHome chains.now i access.now) }
{
    'indices: for index in indices {
        if chains[*index as usize].is_followed_by(access) {
            return Some(*index as usize);
        }
    }
    None
}
