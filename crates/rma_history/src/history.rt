//! The accesses to the memory of one rank.
ghost use Rattle.std.specs.Prelude.{◌≡◌, ◌↔◌, ◌⊎◌, ℕ, List, [], Contains, IfSome, OnOk, length, slice_get, Some, ◌<◌};
ghost use Rattle.rma_link.specs.declared.links.Links.{Links};
ghost use Rattle.rma_rules.specs.Access.{Access};
ghost use Rattle.rma_rules.specs.Spans.{Spans};
ghost use Rattle.rma_finding.specs.declared.finding.FoundRace.{FoundRace};
ghost use Rattle.rma_pairs.specs.Races.{IsFoundBetween};
ghost use Rattle.rma_chain.specs.Asked.{MayBeAsked};
ghost use Rattle.rma_history.specs.History.{AreKnown, IsPassed};
ghost use Rattle.rma_history.specs.inside.Overlaps.{IsHome, accesses_of};

use crate::modelled::ModelledWindows;
use crate::overlaps::Overlaps;
use crate::retire::{is_any_passed, keep_others};
use crate::search::{find_among, home_of};
use rma_base::Memory;
use rma_chain::Chain;
use rma_clock::Clocks;
use rma_finding::FoundRace;
use rma_rules::{Access, Spans};
use rma_window::Windows;
use std::alloc::Global;
use std::marker::Model;
use std::mem;

/// So many accesses are kept before any of them is looked at again.
const ROOM: usize = 32;

/// The accesses to the memory of one rank that later ones may race with.
#[derive(Drop)]
pub struct MemoryHistory<'a> {
    /// The accesses, in chains of those that follow one another.
    kept: Overlaps<'a>,
    /// The indices of chains that were asked last.
    met: Vec<u32>,
    /// How many accesses there are.
    count: usize,
    /// How many there may be before those are looked for that may go.
    room: usize,
}

impl<'a> Model for MemoryHistory<'a> {
    ghost use Rattle.std.specs.Prelude.{List};
    ghost use Rattle.rma_rules.specs.Access.{Access};
    ghost use Rattle.rma_history.specs.inside.Overlaps.{accesses_of};

    ghost Value = { List Access };

    ghost view = { λ history. accesses_of history.kept };
}

impl<'a> MemoryHistory<'a> {
    /// None yet.
    pub fn new(alloc: Global) -> MemoryHistory<'a>
        ensures { result ≡ [] }
    {
        MemoryHistory {
            kept: Overlaps::new(alloc),
            met: Vec::new(alloc),
            count: 0,
            room: ROOM,
        }
    }

    /// Takes an access, and adds what is found of it with each that is kept. Only those are asked which share a byte with it, where all
    /// windows have the unified memory model.
    ///
    /// # Errors
    ///
    /// `Memory` where there is none left: then the access is not taken, but something of it may have been found.
    pub fn take<C: Clocks>(
        &mut self,
        alloc: Global,
        access: Access<'a>,
        lists: &Spans,
        windows: &ModelledWindows<'_>,
        clocks: &C,
        found: &mut Vec<FoundRace>,
    ) -> Result<(), Memory>
        requires { (points : List ℕ) × (links : Links) × C.are_of clocks.now points links × ((a : Access) → Contains self.old a → MayBeAsked points windows.now lists.now a access) }
        ensures kept { OnOk result ((a : Access) → Contains self.new a ↔ (Contains self.old a ⊎ (a ≡ access.entry))) }
        ensures found { OnOk result ((points : List ℕ) (links : Links) → C.are_of clocks.now points links → ((a : Access) → Contains self.old a → MayBeAsked points windows.now lists.now a access.entry)
            → (race : FoundRace) → Contains found.new.items race ↔ (Contains found.old.items race ⊎ ((a : Access) × Contains self.old a × IsFoundBetween links windows.now lists.now a access.entry race))) }
    {
        meet(alloc, &self.kept, &access, windows, &mut self.met)?;
        let chains = self.kept.chains();
        find_among(
            alloc,
            chains,
            &self.met,
            &access,
            lists,
            windows.windows(),
            clocks,
            found,
        )?;
        let home = home_of(chains, &self.met, &access);
        add(alloc, &mut self.kept, home, access)?;
        self.count = self.count.saturating_add(1);
        Ok(())
    }

    /// Lets accesses go that are before all those which are still to come: of each rank the number of the first call is given that makes
    /// one, if there is one. They are looked for only where there are many, twice as many as were left the last time, and
    /// then among a few first: where none of these may go, all stay.
    ///
    /// # Errors
    ///
    /// `Memory` where there is none left: then some may be gone that are not before all.
    pub fn retire<C: Clocks>(
        &mut self,
        alloc: Global,
        next: &[Option<u32>],
        lists: &Spans,
        windows: &Windows,
        clocks: &C,
    ) -> Result<(), Memory>
        requires { (points : List ℕ) × (links : Links) × C.are_of clocks.now points links × ((a : Access) → Contains self.old a → AreKnown points windows.now lists.now next.now a) }
        ensures kept { OnOk result ((a : Access) → Contains self.new a → Contains self.old a) }
        ensures gone { OnOk result ((points : List ℕ) (links : Links) → C.are_of clocks.now points links → ((a : Access) → Contains self.old a → AreKnown points windows.now lists.now next.now a)
            → (a : Access) → Contains self.old a → Contains self.new a ⊎ IsPassed links windows.now lists.now next.now a) }
    {
        if self.count < self.room {
            return Ok(());
        }
        if !is_any_passed(alloc, self.kept.chains(), next, lists, windows, clocks)? {
            self.room = self.count.saturating_mul(2);
            return Ok(());
        }
        let before = mem::replace(&mut self.kept, Overlaps::new(alloc));
        self.count = keep_others(
            alloc,
            before.into_chains(),
            &mut self.kept,
            next,
            lists,
            windows,
            clocks,
        )?;
        self.room = self.count.saturating_mul(2).max(ROOM);
        Ok(())
    }
}

/// Lists the indices of the chains that have an access with which this one may conflict, and perhaps of others.
fn meet(
    alloc: Global,
    kept: &Overlaps<'_>,
    access: &Access<'_>,
    windows: &ModelledWindows<'_>,
    met: &mut Vec<u32>,
) -> Result<(), Memory>
    ensures found { OnOk result ((links : Links) (spans : Spans) (i : ℕ) (chain : List Access) (a : Access) (race : FoundRace) → slice_get kept.now i ≡ Some chain → Contains chain a
        → IsFoundBetween links windows.now spans a access.now race → Contains met.new.items i) }
    ensures bound { OnOk result ((i : ℕ) → Contains met.new.items i → i < length kept.now) }
{
    if windows.are_unified() {
        kept.meeting(alloc, &access.bytes, met)
    } else {
        kept.all(met)
    }
}

/// Adds an access to the chain at an index, or where none is given as the first of another chain.
fn add<'a>(
    alloc: Global,
    kept: &mut Overlaps<'a>,
    home: Option<usize>,
    access: Access<'a>,
) -> Result<(), Memory>
    requires { IfSome home (λ i. IsHome kept.old i access) }
    ensures { OnOk result ((a : Access) → Contains (accesses_of kept.new) a ↔ (Contains (accesses_of kept.old) a ⊎ (a ≡ access.entry))) }
{
    match home {
        Some(index) => kept.go_on(index, access),
        None => kept.begin(alloc, Chain::of(alloc, access)?),
    }
}
