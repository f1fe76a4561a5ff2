//! The rounds of a run, as its calls come.
ghost use Rattle.std.specs.Prelude.{◌≡◌, ◌≤◌, ◌++◌, ◌∷◌, [], ℕ, List, Some, slice_get, length, IfOk, OnOk};
ghost use Rattle.rma_base.specs.Limits.{fed_limit};
ghost use Rattle.rma_call.specs.Call.{Call, call_of};
ghost use Rattle.rma_run.specs.Run.{IsRun, calls_of, with_calls};
ghost use Rattle.rma_round.specs.Round.{partner_of};
ghost use Rattle.rma_round.specs.inside.Rounds.{AreOfKind, Represents};

use crate::kind::Kind;
use crate::kind_rounds::KindRounds;
use crate::own_calls::OwnCalls;
use rma_base::{Memory, Rank};
use rma_call::{CallList, CallRef, RankCalls};
use std::alloc::Global;

/// The rounds of a run, as its calls come.
#[derive(Drop)]
pub struct Rounds {
    /// Where tables take their memory.
    pub(crate) alloc: Global,
    /// Those of barriers and of creations of windows.
    pub(crate) collectives: KindRounds,
    /// Those of calls that free a window.
    pub(crate) frees: KindRounds,
    /// Those of fences.
    pub(crate) fences: KindRounds,
    /// Those of calls that move data.
    pub(crate) movings: KindRounds,
}

impl Rounds {
    /// No calls.
    pub fn new(alloc: Global) -> Rounds
        ensures { Represents (λ _. []) result }
    {
        Rounds {
            alloc,
            collectives: KindRounds::new(alloc, Kind::Collective),
            frees: KindRounds::new(alloc, Kind::Free),
            fences: KindRounds::new(alloc, Kind::Fence),
            movings: KindRounds::new(alloc, Kind::Moving),
        }
    }

    /// Takes the next call of a rank: its number among the calls of that rank, from 0, is that of the calls of the rank
    /// before it. The calls of the ranks may come in any order of the ranks.
    ///
    /// # Errors
    ///
    /// `Memory`, and then nothing is said of what is kept.
    pub fn take(&mut self, rank: Rank, number: u32, call: CallRef<'_>) -> Result<(), Memory>
        ensures { OnOk result ((calls : ℕ → List Call) → length (calls rank.0) ≡ number → Represents calls self.old
            → Represents (with_calls calls rank.0 (call_of call.entry ∷ [])) self.new) }
    {
        self.collectives.take(self.alloc, rank, number, call)?;
        self.frees.take(self.alloc, rank, number, call)?;
        self.fences.take(self.alloc, rank, number, call)?;
        self.movings.take(self.alloc, rank, number, call)?;
        Ok(())
    }

    /// The rounds of a kind.
    pub fn of_kind(&self, kind: Kind) -> &KindRounds
        ensures { (calls : ℕ → List Call) → Represents calls self.now → AreOfKind kind calls result.now }
    {
        match kind {
            Kind::Collective => &self.collectives,
            Kind::Free => &self.frees,
            Kind::Fence => &self.fences,
            Kind::Moving => &self.movings,
        }
    }

    /// The call of the other rank that is of the round of a call of a rank, which is handed in with its number. Where the
    /// other rank is the same, that is the call itself.
    pub fn partner(&self, rank: Rank, number: u32, call: CallRef<'_>, other: Rank) -> Option<u32>
        ensures { (calls : ℕ → List Call) → Represents calls self.now → slice_get (calls rank.0) number ≡ Some (call_of call.entry)
            → result ≡ partner_of calls rank.0 number other.0 }
    {
        let collective = self.collectives.matched(rank, number, call.what, other);
        let free = self.frees.matched(rank, number, call.what, other);
        let fence = self.fences.matched(rank, number, call.what, other);
        let moving = self.movings.matched(rank, number, call.what, other);
        collective.or(free.or(fence.or(moving)))
    }

    /// The rounds of whole logs: all calls are taken, rank by rank. The i-th log is that of rank i.
    ///
    /// # Errors
    ///
    /// `Memory` where there is none left.
    pub fn of_calls(alloc: Global, ranks: &[RankCalls]) -> Result<Rounds, Memory>
        requires { IsRun ranks.now }
        ensures { IfOk result (λ rounds. Represents (calls_of ranks.now) rounds) }
    {
        let mut rounds = Rounds::new(alloc);
        for rank in ranks {
            rounds.take_all(rank.rank(), rank.calls())?;
        }
        Ok(rounds)
    }

    /// Takes the calls of a rank of which none is taken yet.
    fn take_all(&mut self, rank: Rank, own: &CallList) -> Result<(), Memory>
        requires { length own.now.calls ≤ fed_limit }
        ensures { OnOk result ((calls : ℕ → List Call) → calls rank.0 ≡ [] → Represents calls self.old
            → Represents (with_calls calls rank.0 own.now.calls) self.new) }
    {
        let OwnCalls {
            collectives,
            frees,
            fences,
            movings,
        } = OwnCalls::of_calls(self.alloc, own)?;
        self.collectives.take_all(self.alloc, rank, collectives)?;
        self.frees.take_all(self.alloc, rank, frees)?;
        self.fences.take_all(self.alloc, rank, fences)?;
        self.movings.take_all(self.alloc, rank, movings)?;
        Ok(())
    }
}
