//! Which calls of a run match, as its calls come.
ghost use Rattle.std.specs.Prelude.{◌≡◌, ◌∷◌, [], ℕ, List, Some, slice_get, length, IfOk, OnOk};
ghost use Rattle.rma_call.specs.Call.{Call, call_of};
ghost use Rattle.rma_run.specs.Run.{with_calls};
ghost use Rattle.rma_exposure.specs.Closing.{closing_of};
ghost use Rattle.rma_exposure.specs.declared.side.Side.TheVariants.{Exposure};
ghost use Rattle.rma_match.specs.Source.{partner_of};
ghost use Rattle.rma_match.specs.inside.Live.{Represents};

use crate::groups::Groups;
use rma_base::limits::FED;
use rma_base::{Memory, Rank};
use rma_call::CallRef;
use rma_exposure::Exposures;
use rma_message::LiveMessages;
use rma_round::Rounds;
use std::alloc::Global;

/// Which calls of a run match, as its calls come.
#[derive(Drop)]
pub struct LiveMatch {
    /// The communicators and windows that each rank has declared.
    pub(crate) groups: Groups,
    /// The messages.
    pub(crate) messages: LiveMessages,
    /// The rounds of collectives.
    pub(crate) rounds: Rounds,
    /// The posts and starts.
    pub(crate) exposures: Exposures,
}

impl LiveMatch {
    /// No calls, of a run of so many ranks.
    ///
    /// # Errors
    ///
    /// `Memory` where there is none left.
    pub fn new(alloc: Global, ranks: u32) -> Result<LiveMatch, Memory>
        ensures { IfOk result (Represents ranks (λ _. [])) }
    {
        Ok(LiveMatch {
            groups: Groups::new(alloc, ranks)?,
            messages: LiveMessages::new(alloc),
            rounds: Rounds::new(alloc),
            exposures: Exposures::new(alloc),
        })
    }

    /// Takes the next call of a rank: its number among the calls of that rank, from 0, is that of the calls of the rank
    /// before it. The calls of the ranks may come in any order of the ranks.
    ///
    /// # Errors
    ///
    /// `Memory`, also where a rank makes more calls than a run may have, and then nothing is said of what is kept.
    pub fn take(&mut self, rank: Rank, number: u32, call: CallRef<'_>) -> Result<(), Memory>
        ensures { OnOk result ((ranks : ℕ) (calls : ℕ → List Call) → length (calls rank.0) ≡ number → Represents ranks calls self.old
            → Represents ranks (with_calls calls rank.0 (call_of call.entry ∷ [])) self.new) }
    {
        if number as u64 >= FED {
            return Err(Memory);
        }
        self.groups.take(rank, call)?;
        self.messages.take(rank, number, call)?;
        self.rounds.take(rank, number, call)?;
        self.exposures.take(rank, number, call)?;
        Ok(())
    }

    /// The call of the other rank that matches a call of a rank, which is handed in with its number: that of its round, the
    /// start of a post, or the post of a start.
    pub fn partner(&self, rank: Rank, number: u32, call: CallRef<'_>, other: Rank) -> Option<u32>
        ensures { (ranks : ℕ) (calls : ℕ → List Call) → Represents ranks calls self.now → slice_get (calls rank.0) number ≡ Some (call_of call.entry)
            → result ≡ partner_of calls rank.0 number other.0 }
    {
        let of_round = self.rounds.partner(rank, number, call, other);
        of_round.or(self.exposures.partner(rank, number, other))
    }

    /// The expwait that closes the exposure epoch of the post of this number of a rank.
    pub fn expwait_of(&self, rank: Rank, post: u32) -> Option<u32>
        ensures { (ranks : ℕ) (calls : ℕ → List Call) → Represents ranks calls self.now → result ≡ closing_of Exposure (calls rank.0) post }
    {
        self.exposures.expwait_of(rank, post)
    }
}
