//! The calls of a kind of all ranks, round by round of each name.
ghost use Rattle.std.specs.Prelude.{◌≡◌, ◌++◌, [], ◌∷◌, ℕ, List, true, length, slice_get, nat_eq, OnOk, IfOk, if◌then◌else◌};
ghost use Rattle.std.specs.List.{cons_option};
ghost use Rattle.std.specs.Option.{option_and_then};
ghost use Rattle.std.specs.Cmp.Lexicographic.{pointwise};
ghost use Rattle.rma_call.specs.Call.{Call, RankCalls, call_of};
ghost use Rattle.rma_round.specs.declared.kind.Kind.{Kind};
ghost use Rattle.rma_agreement.specs.Collective.{place_of, so_far};
ghost use Rattle.rma_member.specs.inside.Member.{AreMembers};
ghost use Rattle.rma_agreement.specs.Balance.{AreBalanced};
ghost use Rattle.rma_difference.specs.inside.CallCount.{number_in};
ghost use Rattle.rma_agreement.specs.Round.{differs};
ghost use Rattle.rma_difference.specs.inside.Round.{no_rounds, joined, rounds_of, first_at, AreRounds};

use crate::call_count::CallCounts;
use indexmap::IndexMap;
use rma_agreement::First;
use rma_base::{Memory, Name, Rank, Sequence};
use rma_call::{CallRef, MatchFault};
use rma_member::{Members, push_some};
use rma_round::{Kind, named};
use std::alloc::Global;

/// The rounds of a name.
#[derive(Drop)]
pub(crate) struct NameRounds {
    /// The first call of each round.
    firsts: Sequence<First>,
    /// How many calls each rank makes.
    call_counts: CallCounts,
}

/// The rounds of a kind, of all names.
#[derive(Drop)]
pub(crate) struct Rounds {
    /// The kind.
    kind: Kind,
    /// The rounds of each name.
    names: IndexMap<Name, NameRounds>,
    /// The faults of the calls that do not agree with the first of their round.
    faults: Sequence<MatchFault>,
}

impl NameRounds {
    /// No calls.
    fn new(alloc: Global) -> NameRounds
        ensures { result ≡ no_rounds }
    {
        NameRounds {
            firsts: Sequence::new(alloc),
            call_counts: CallCounts::new(alloc),
        }
    }

    /// The next call of a rank is the first of its round, or has a fault where it does not agree with the first.
    fn join(
        &mut self,
        kind: Kind,
        index: usize,
        own: First,
        faults: &mut Sequence<MatchFault>,
    ) -> Result<(), Memory>
        ensures joined { OnOk result (self.new ≡ joined self.old index own) }
        ensures faults { OnOk result (faults.new ≡ faults.old ++ cons_option (option_and_then (λ first. differs kind first own)
            (slice_get self.old.firsts (number_in self.old.call_counts index))) []) }
    {
        let number = self.call_counts.count(index)?;
        if number < self.firsts.len() {
            return push_some(faults, self.firsts.get(number).difference(kind, &own));
        }
        self.firsts.push(own)?;
        Ok(())
    }
}

impl Rounds {
    /// No calls of the kind.
    pub(crate) fn new(alloc: Global, kind: Kind) -> Rounds
        ensures { AreRounds kind [] 0 result }
    {
        Rounds {
            kind,
            names: IndexMap::new(alloc),
            faults: Sequence::new(alloc),
        }
    }

    /// How many calls the current rank makes on the name.
    pub(crate) fn number(&self, index: usize, name: &Name) -> usize
        ensures { result ≡ number_in (rounds_of self.now.names.entries name.now).call_counts index }
    {
        match self.names.get(name) {
            Some(name_rounds) => name_rounds.call_counts.number(index),
            None => 0,
        }
    }

    /// A call of the current rank joins its round, if it is of the kind.
    pub(crate) fn scan(
        &mut self,
        alloc: Global,
        index: usize,
        rank: Rank,
        place: usize,
        call: CallRef<'_>,
    ) -> Result<(), Memory>
        ensures { OnOk result ((kind : Kind) (done : List RankCalls) (own : RankCalls) (before : List Call) → length done ≡ index → own.rank ≡ rank
            → place ≡ place_of before (call_of call.entry).what
            → AreRounds kind (so_far done own before) index self.old → AreRounds kind (so_far done own (before ++ call_of call.entry ∷ [])) index self.new) }
    {
        let Some(name) = named(self.kind, call.what) else {
            return Ok(());
        };
        let own = First::new(rank, place, call)?;
        self.join(alloc, name, index, own)?;
        Ok(())
    }

    /// The next call of a rank on the name joins its round.
    fn join(&mut self, alloc: Global, name: &Name, index: usize, own: First) -> Result<(), Memory>
        ensures kind { OnOk result (self.new.kind ≡ self.old.kind) }
        ensures joined { OnOk result ((other : List ℕ) → rounds_of self.new.names.entries other
            ≡ (if pointwise nat_eq name.now other then joined (rounds_of self.old.names.entries name.now) index own else rounds_of self.old.names.entries other)) }
        ensures faults { OnOk result (self.new.faults ≡ self.old.faults ++ cons_option (option_and_then (λ first. differs self.old.kind first own)
            (first_at self.old.names.entries name.now (number_in (rounds_of self.old.names.entries name.now).call_counts index))) []) }
    {
        if let Some(name_rounds) = self.names.get_mut(name) {
            return name_rounds.join(self.kind, index, own, &mut self.faults);
        }
        let mut name_rounds = NameRounds::new(alloc);
        name_rounds.join(self.kind, index, own, &mut self.faults)?;
        let name = name.copy()?;
        self.names.insert(name, name_rounds)?;
        Ok(())
    }

    /// The faults of the calls that do not agree with the first of their round.
    pub(crate) fn faults(self) -> Sequence<MatchFault>
        ensures { result ≡ self.faults }
    {
        self.faults
    }

    /// Whether each member makes as many calls of the kind on each name as any rank does.
    pub(crate) fn are_balanced(&self, members: &Members) -> bool
        ensures { result ≡ true → (kind : Kind) (ranks : List RankCalls) (index : ℕ) → AreMembers ranks members.now → AreRounds kind ranks index self.now
            → AreBalanced kind ranks }
    {
        for (name, name_rounds) in self.names.iter() {
            if !name_rounds
                .call_counts
                .is_balanced(members.of(self.kind, name))
            {
                return false;
            }
        }
        true
    }
}
