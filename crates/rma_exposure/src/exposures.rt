//! The posts and starts of a run, as its calls come.
ghost use Rattle.std.specs.Prelude.{◌≡◌, ◌==◌, ◌++◌, ◌∷◌, [], ℕ, List, false, length, OnOk, option_map};
ghost use Rattle.rma_call.specs.Call.{Call, call_of};
ghost use Rattle.rma_run.specs.Run.{with_calls};
ghost use Rattle.rma_exposure.specs.declared.side.Side.TheVariants.{Exposure, Access};
ghost use Rattle.rma_exposure.specs.inside.Epochs.{kept_of, IsOfRank, Represents};
ghost use Rattle.rma_exposure.specs.Opening.{opening_at};
ghost use Rattle.rma_exposure.specs.Matching.{numbers, match_of, matched_at, partner_of};
ghost use Rattle.rma_exposure.specs.Closing.{closing_of, opener_of};
ghost use Rattle.rma_exposure.specs.Edge.{complete_for};

use crate::rank_epochs::RankEpochs;
use crate::side::{Side, opens_or_closes, opposite};
use indexmap::IndexMap;
use rma_base::{Memory, Name, Rank, RankSet};
use rma_call::CallRef;
use std::alloc::Global;

/// The posts and starts of a run, as its calls come.
#[derive(Drop)]
pub struct Exposures {
    /// Where tables take their memory.
    pub(crate) alloc: Global,
    /// What each rank opens and closes.
    pub(crate) ranks: IndexMap<Rank, RankEpochs>,
}

impl Exposures {
    /// No calls.
    pub fn new(alloc: Global) -> Exposures
        ensures { Represents (λ _. []) result }
    {
        Exposures {
            alloc,
            ranks: IndexMap::new(alloc),
        }
    }

    /// Takes the next call of a rank: its number among the calls of that rank, from 0, is that of the calls of the rank
    /// before it. The calls of the ranks may come in any order of the ranks.
    ///
    /// # Errors
    ///
    /// `Memory`, and then nothing is said of what is kept.
    pub fn take(&mut self, rank: Rank, number: u32, call: CallRef<'_>) -> Result<(), Memory>
        ensures { OnOk result ((calls : ℕ → List Call) → length (calls rank.0) ≡ number → Represents calls self.old
            → Represents (with_calls calls rank.0 (call_of call.entry ∷ [])) self.new) }
    {
        if !opens_or_closes(call.what) {
            return Ok(());
        }
        take(self.alloc, &mut self.ranks, rank, number, call)
    }

    /// The call of the other rank that matches the call of this number of a rank, where that is a post or a start.
    pub fn partner(&self, rank: Rank, number: u32, other: Rank) -> Option<u32>
        ensures { (calls : ℕ → List Call) → Represents calls self.now → result ≡ partner_of calls rank.0 number other.0 }
    {
        let matched = self.matched(Side::Exposure, rank, number, other);
        matched.or(self.matched(Side::Access, rank, number, other))
    }

    /// The expwait that closes the exposure epoch of the post of this number of a rank.
    pub fn expwait_of(&self, rank: Rank, post: u32) -> Option<u32>
        ensures { (calls : ℕ → List Call) → Represents calls self.now → result ≡ closing_of Exposure (calls rank.0) post }
    {
        self.closing_of(Side::Exposure, rank, post)
    }

    /// The complete that closes the access epoch of the start of this number of a rank.
    pub fn complete_of(&self, rank: Rank, start: u32) -> Option<u32>
        ensures { (calls : ℕ → List Call) → Represents calls self.now → result ≡ closing_of Access (calls rank.0) start }
    {
        self.closing_of(Side::Access, rank, start)
    }

    /// The post that opens the exposure epoch which the expwait of this number of a rank closes.
    pub fn post_of(&self, rank: Rank, expwait: u32) -> Option<u32>
        ensures { (calls : ℕ → List Call) → Represents calls self.now → result ≡ opener_of Exposure (calls rank.0) expwait }
    {
        match self.ranks.get(&rank) {
            Some(epochs) => epochs.of(Side::Exposure).opener(expwait),
            None => None,
        }
    }

    /// The window and the group of the post of this number of a rank.
    pub fn posted(&self, rank: Rank, post: u32) -> Option<(&Name, &RankSet)>
        ensures { (calls : ℕ → List Call) → Represents calls self.now
            → option_map (λ p. record { window = p.0.now; group = p.1.now }) result ≡ opening_at Exposure (calls rank.0) post }
    {
        self.opening(Side::Exposure, rank, post)
    }

    /// The complete of the origin's start that matches the post of this number of a rank on the window.
    pub fn complete_for(&self, rank: Rank, post: u32, window: &Name, origin: Rank) -> Option<u32>
        ensures { (calls : ℕ → List Call) → Represents calls self.now → result ≡ complete_for calls rank.0 post window.now origin.0 }
    {
        match self.match_of(Side::Exposure, window, rank, post, origin) {
            Some(start) => self.complete_of(origin, start),
            None => None,
        }
    }

    /// The call of the other rank that matches the call of this number of a rank, where that opens an epoch of the side.
    fn matched(&self, side: Side, rank: Rank, number: u32, other: Rank) -> Option<u32>
        ensures { (calls : ℕ → List Call) → Represents calls self.now → result ≡ matched_at side calls rank.0 number other.0 }
    {
        match self.opening(side, rank, number) {
            Some((window, _)) => self.match_of(side, window, rank, number, other),
            None => None,
        }
    }

    /// The window and the group of the epoch of the side that the call of this number of a rank opens.
    fn opening(&self, side: Side, rank: Rank, number: u32) -> Option<(&Name, &RankSet)>
        ensures { (calls : ℕ → List Call) → Represents calls self.now
            → option_map (λ p. record { window = p.0.now; group = p.1.now }) result ≡ opening_at side (calls rank.0) number }
    {
        match self.ranks.get(&rank) {
            Some(epochs) => epochs.of(side).opening(number),
            None => None,
        }
    }

    /// The numbers of the calls of a rank that open an epoch of the side on the window with the other rank in their group.
    pub(crate) fn numbers(&self, side: Side, window: &Name, rank: Rank, other: Rank) -> &[u32]
        ensures { (calls : ℕ → List Call) → Represents calls self.now → result.now ≡ numbers side window.now other.0 (calls rank.0) }
    {
        match self.ranks.get(&rank) {
            Some(epochs) => epochs.of(side).with(window, other.0),
            None => &[],
        }
    }

    /// The call of the other rank that matches the call of this number of a rank, where that opens an epoch of the side on the
    /// window with the other rank in its group.
    pub(crate) fn match_of(
        &self,
        side: Side,
        window: &Name,
        rank: Rank,
        number: u32,
        other: Rank,
    ) -> Option<u32>
        ensures { (calls : ℕ → List Call) → Represents calls self.now → result ≡ match_of side window.now calls rank.0 number other.0 }
    {
        match self
            .numbers(side, window, rank, other)
            .binary_search(&number)
        {
            Ok(place) => {
                let numbers = self.numbers(opposite(side), window, other, rank);
                numbers.get(place).copied()
            }
            Err(_) => None,
        }
    }

    /// The call of a rank that closes the epoch of the side which its call of this number opens.
    pub(crate) fn closing_of(&self, side: Side, rank: Rank, number: u32) -> Option<u32>
        ensures { (calls : ℕ → List Call) → Represents calls self.now → result ≡ closing_of side (calls rank.0) number }
    {
        match self.ranks.get(&rank) {
            Some(epochs) => epochs.of(side).closing(number),
            None => None,
        }
    }
}

/// Takes the next call of the rank.
fn take(
    alloc: Global,
    ranks: &mut IndexMap<Rank, RankEpochs>,
    rank: Rank,
    number: u32,
    call: CallRef<'_>,
) -> Result<(), Memory>
    ensures own { OnOk result ((calls : List Call) → length calls ≡ number → IsOfRank calls (kept_of ranks.old.entries rank.0)
        → IsOfRank (calls ++ call_of call.entry ∷ []) (kept_of ranks.new.entries rank.0)) }
    ensures others { OnOk result ((other : Rank) → (rank.0 == other.0) ≡ false → kept_of ranks.new.entries other.0 ≡ kept_of ranks.old.entries other.0) }
{
    if let Some(epochs) = ranks.get_mut(&rank) {
        epochs.take(alloc, None, number, call.what)?;
        return Ok(());
    }
    let mut epochs = RankEpochs::new(alloc);
    epochs.take(alloc, None, number, call.what)?;
    ranks.insert(rank, epochs)?;
    Ok(())
}
