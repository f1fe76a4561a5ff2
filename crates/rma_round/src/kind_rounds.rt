//! The rounds of one kind.
ghost use Rattle.std.specs.Prelude.{◌≡◌, ◌<◌, ◌++◌, Contains, Some, slice_get, ◌∷◌, [], ℕ, List, true, false, length, nat_eq, OnOk, option_copied, if◌then◌else◌};
ghost use Rattle.std.specs.List.{flat_map, IsDistinct};
ghost use Rattle.std.specs.Cmp.Lexicographic.{pointwise};
ghost use Rattle.rma_call.specs.Call.{Call, call_of, what_of};
ghost use Rattle.rma_run.specs.Run.{IsRun, calls_of, with_calls};
ghost use Rattle.rma_round.specs.declared.kind.Kind.{Kind};
ghost use Rattle.rma_round.specs.Round.{numbers, place_in, match_of, matched_at};
ghost use Rattle.rma_round.specs.Kind.{named};
ghost use Rattle.rma_round.specs.inside.Rounds.{kept, numbers_in, names_in, AreOnName, AreFoundOnName, AreOfKind};
ghost use Rattle.rma_round.specs.inside.Lists.{list_of};
ghost use Rattle.rma_round.specs.inside.Met.{before_round, turn_meets};

use crate::kind::{Kind, named};
use crate::meet::Turn;
use crate::name_rounds::{NameRounds, place_in};
use indexmap::IndexMap;
use rma_base::{Memory, Name, Rank, Sequence};
use rma_call::{CallRef, RankCalls, WhatRef};
use rma_link::Links;
use std::alloc::Global;

/// The rounds of one kind.
#[derive(Drop)]
pub struct KindRounds {
    /// The kind.
    kind: Kind,
    /// The rounds on each name.
    names: IndexMap<Name, NameRounds>,
}

impl KindRounds {
    /// No calls.
    pub(crate) fn new(alloc: Global, kind: Kind) -> KindRounds
        ensures { AreOfKind kind (λ _. []) result }
    {
        KindRounds {
            kind,
            names: IndexMap::new(alloc),
        }
    }

    /// The number of names that calls of the kind are on.
    pub fn len(&self) -> usize
        ensures count { result ≡ length (names_in self.now) }
        ensures once { IsDistinct (pointwise nat_eq) (names_in self.now) }
        ensures each { (kind : Kind) (calls : ℕ → List Call) → AreOfKind kind calls self.now
            → (rank number : ℕ) (call : Call) (name : List ℕ) → slice_get (calls rank) number ≡ Some call → named kind call.what ≡ Some name → Contains (names_in self.now) name }
    {
        self.names.len()
    }

    /// The name at an index.
    pub fn name(&self, i: usize) -> &Name
        requires { i < length (names_in self.now) }
        ensures { slice_get (names_in self.now) i ≡ Some result.now }
    {
        match self.names.get_index(i) {
            Some((name, _)) => name,
            None => unreachable!(),
        }
    }

    /// The rounds on the name at an index.
    pub fn rounds(&self, i: usize) -> &NameRounds
        requires { i < length (names_in self.now) }
        ensures { (kind : Kind) (calls : ℕ → List Call) → AreOfKind kind calls self.now
            → (name : List ℕ) → slice_get (names_in self.now) i ≡ Some name → AreOnName kind name calls result.now }
    {
        match self.names.get_index(i) {
            Some((_, rounds)) => rounds,
            None => unreachable!(),
        }
    }

    /// The rounds on a name, if any calls of the kind are on it.
    pub fn find(&self, name: &Name) -> Option<&NameRounds>
        ensures { (kind : Kind) (calls : ℕ → List Call) → AreOfKind kind calls self.now → AreFoundOnName kind name.now calls (option_copied result) }
    {
        self.names.get(name)
    }

    /// Takes the next call of a rank, which has this number, if it is of the kind.
    pub(crate) fn take(
        &mut self,
        alloc: Global,
        rank: Rank,
        number: u32,
        call: CallRef<'_>,
    ) -> Result<(), Memory>
        ensures { OnOk result ((kind : Kind) (calls : ℕ → List Call) → length (calls rank.0) ≡ number → AreOfKind kind calls self.old
            → AreOfKind kind (with_calls calls rank.0 (call_of call.entry ∷ [])) self.new) }
    {
        let Some(name) = named(self.kind, call.what) else {
            return Ok(());
        };
        add(alloc, &mut self.names, rank, number, name)
    }

    /// Takes all calls of a rank, of which none is taken yet, that are of the kind: their numbers by their names.
    pub(crate) fn take_all(
        &mut self,
        alloc: Global,
        rank: Rank,
        own: IndexMap<Name, Sequence<u32>>,
    ) -> Result<(), Memory>
        ensures { OnOk result ((kind : Kind) (calls : ℕ → List Call) (more : List Call) → calls rank.0 ≡ [] → ((name : List ℕ) → list_of own.entries name ≡ numbers kind name more)
            → AreOfKind kind calls self.old → AreOfKind kind (with_calls calls rank.0 more) self.new) }
    {
        for (name, numbers) in own {
            put(alloc, &mut self.names, rank, name, numbers)?;
        }
        Ok(())
    }

    /// The call of the other rank that is of the round of the call of this number of a rank, where that call is of the kind.
    pub(crate) fn matched(
        &self,
        rank: Rank,
        number: u32,
        what: WhatRef<'_>,
        other: Rank,
    ) -> Option<u32>
        ensures { (kind : Kind) (calls : ℕ → List Call) → AreOfKind kind calls self.now → result ≡ matched_at kind calls rank.0 number other.0 (what_of what.entry) }
    {
        match named(self.kind, what) {
            Some(name) => self.match_of(name, rank, number, other),
            None => None,
        }
    }

    /// The call of the other rank that is of the round of the call of this number of a rank on the name.
    pub(crate) fn match_of(&self, name: &Name, rank: Rank, number: u32, other: Rank) -> Option<u32>
        ensures { (kind : Kind) (calls : ℕ → List Call) → AreOfKind kind calls self.now → result ≡ match_of kind name.now calls rank.0 number other.0 }
    {
        match self.names.get(name) {
            Some(rounds) => {
                let place = place_in(rounds.of(rank), number)?;
                rounds.of(other).get(place).copied()
            }
            None => None,
        }
    }

    /// Whether no call is of the kind.
    pub(crate) fn is_empty(&self) -> bool
        ensures { result ≡ true → self.now.names.entries ≡ [] }
    {
        self.names.is_empty()
    }

    /// Appends the meet of each round of which a call waits for all, in so many turns.
    pub(crate) fn push_meets(
        &self,
        alloc: Global,
        ranks: &[RankCalls],
        turns: usize,
        links: &mut Links,
    ) -> Result<(), Memory>
        requires run { IsRun ranks.now }
        ensures edges { OnOk result (links.new.edges ≡ links.old.edges) }
        ensures meets { OnOk result ((kind : Kind) → AreOfKind kind (calls_of ranks.now) self.now
            → links.new.meets ≡ links.old.meets ++ before_round (turn_meets ranks.now kind turns self.now.names.entries) turns) }
    {
        for number in 0..turns {
            self.push_turn(alloc, ranks, Turn { number, of: turns }, links)?;
        }
        Ok(())
    }

    /// Appends those of the rounds of a turn, name by name.
    fn push_turn(
        &self,
        alloc: Global,
        ranks: &[RankCalls],
        turn: Turn,
        links: &mut Links,
    ) -> Result<(), Memory>
        requires run { IsRun ranks.now }
        requires turn { turn.number < turn.of }
        ensures edges { OnOk result (links.new.edges ≡ links.old.edges) }
        ensures meets { OnOk result ((kind : Kind) → AreOfKind kind (calls_of ranks.now) self.now
            → links.new.meets ≡ links.old.meets ++ turn_meets ranks.now kind turn.of self.now.names.entries turn.number) }
    {
        for (_, rounds) in self.names.iter() {
            rounds.push_meets(alloc, ranks, turn, links)?;
        }
        Ok(())
    }

    /// How many rounds there are on all names, cut off where a count ends.
    pub(crate) fn rounds_in_all(&self) -> usize {
        let mut all: usize = 0;
        for (_, rounds) in self.names.iter() {
            all = all.saturating_add(rounds.len());
        }
        all
    }
}

/// Takes the call of this number of a rank on the name.
fn add(
    alloc: Global,
    names: &mut IndexMap<Name, NameRounds>,
    rank: Rank,
    number: u32,
    name: &Name,
) -> Result<(), Memory>
    ensures own { OnOk result ((other : List ℕ) (member : ℕ) → pointwise nat_eq name.now other ≡ true
        → numbers_in (kept names.new.entries other) member ≡ numbers_in (kept names.old.entries other) member ++ (if nat_eq rank.0 member then number ∷ [] else [])) }
    ensures others { OnOk result ((other : List ℕ) → pointwise nat_eq name.now other ≡ false → kept names.new.entries other ≡ kept names.old.entries other) }
{
    if let Some(rounds) = names.get_mut(name) {
        return rounds.add(alloc, rank, number);
    }
    let mut rounds = NameRounds::new(alloc);
    rounds.add(alloc, rank, number)?;
    let name = name.copy()?;
    names.insert(name, rounds)?;
    Ok(())
}

/// Takes all calls of a rank on the name, by their numbers.
fn put(
    alloc: Global,
    names: &mut IndexMap<Name, NameRounds>,
    rank: Rank,
    name: Name,
    numbers: Sequence<u32>,
) -> Result<(), Memory>
    ensures own { OnOk result ((other : List ℕ) (member : ℕ) → pointwise nat_eq name other ≡ true
        → numbers_in (kept names.new.entries other) member ≡ (if nat_eq rank.0 member then numbers else numbers_in (kept names.old.entries other) member)) }
    ensures others { OnOk result ((other : List ℕ) → pointwise nat_eq name other ≡ false → kept names.new.entries other ≡ kept names.old.entries other) }
{
    if let Some(rounds) = names.get_mut(&name) {
        return rounds.put(rank, numbers);
    }
    let mut rounds = NameRounds::new(alloc);
    rounds.put(rank, numbers)?;
    names.insert(name, rounds)?;
    Ok(())
}
