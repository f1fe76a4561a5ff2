//! The rounds of all kinds.
ghost use Rattle.std.specs.Prelude.{◌≡◌, ◌++◌, [], ◌∷◌, ℕ, List, true, length, OnOk};
ghost use Rattle.rma_call.specs.Call.{Call, RankCalls, call_of, what_of};
ghost use Rattle.rma_round.specs.declared.kind.Kind.TheVariants as kind;
ghost use Rattle.rma_agreement.specs.Collective.{place_of, so_far};
ghost use Rattle.rma_agreement.specs.Balance.{AreBalanced};
ghost use Rattle.rma_round.specs.declared.kind.Kind.{Kind};
ghost use Rattle.rma_member.specs.inside.Member.{AreMembers};
ghost use Rattle.rma_difference.specs.inside.Round.{AreRounds};
ghost use Rattle.rma_difference.specs.inside.Scan.{AreAllRounds};

use crate::round::Rounds;
use rma_base::{Memory, Rank};
use rma_call::{CallRef, WhatRef};
use rma_member::Members;
use rma_round::{Kind, moved_on};
use std::alloc::Global;

/// The rounds of each kind.
#[derive(Drop)]
pub(crate) struct AllRounds {
    pub(crate) collectives: Rounds,
    pub(crate) frees: Rounds,
    pub(crate) fences: Rounds,
    pub(crate) movings: Rounds,
}

impl AllRounds {
    /// No calls.
    pub(crate) fn new(alloc: Global) -> AllRounds
        ensures { AreAllRounds [] 0 result }
    {
        AllRounds {
            collectives: Rounds::new(alloc, Kind::Collective),
            frees: Rounds::new(alloc, Kind::Free),
            fences: Rounds::new(alloc, Kind::Fence),
            movings: Rounds::new(alloc, Kind::Moving),
        }
    }

    /// A call of the current rank joins its round, if it is of a kind.
    pub(crate) fn scan(
        &mut self,
        alloc: Global,
        index: usize,
        rank: Rank,
        call: CallRef<'_>,
    ) -> Result<(), Memory>
        ensures { OnOk result ((done : List RankCalls) (own : RankCalls) (before : List Call) → length done ≡ index → own.rank ≡ rank
            → AreAllRounds (so_far done own before) index self.old → AreAllRounds (so_far done own (before ++ call_of call.entry ∷ [])) index self.new) }
    {
        let place = self.place(index, call.what);
        self.collectives.scan(alloc, index, rank, place, call)?;
        self.frees.scan(alloc, index, rank, place, call)?;
        self.fences.scan(alloc, index, rank, place, call)?;
        self.movings.scan(alloc, index, rank, place, call)?;
        Ok(())
    }

    /// How many barriers and creations of windows the current rank has made on the communicator on which a call moves data.
    fn place(&self, index: usize, what: WhatRef<'_>) -> usize
        ensures { (done : List RankCalls) (own : RankCalls) (before : List Call) → length done ≡ index
            → AreRounds kind.Collective (so_far done own before) index self.now.collectives → result ≡ place_of before (what_of what.entry) }
    {
        match moved_on(what) {
            Some(comm) => self.collectives.number(index, comm),
            None => 0,
        }
    }

    /// Whether each member makes as many calls of each kind as any rank does, so that no call is missing.
    pub(crate) fn are_balanced(&self, members: &Members) -> bool
        ensures { result ≡ true → (ranks : List RankCalls) (index : ℕ) → AreMembers ranks members.now → AreAllRounds ranks index self.now
            → (kind : Kind) → AreBalanced kind ranks }
    {
        self.collectives.are_balanced(members)
            && self.frees.are_balanced(members)
            && self.fences.are_balanced(members)
            && self.movings.are_balanced(members)
    }
}
