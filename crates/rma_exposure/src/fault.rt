//! Posts and starts that have no match.
ghost use Rattle.std.specs.Prelude.{◌≡◌, ◌≤◌, ◌++◌, ℕ, List, Some, true, length, IfOk, OnOk};
ghost use Rattle.rma_call.specs.Call.{Call, call_of};
ghost use Rattle.rma_run.specs.Run.{IsRun, calls_of, by_number};
ghost use Rattle.rma_exposure.specs.Opening.{opposite};
ghost use Rattle.rma_exposure.specs.Matching.{numbers};
ghost use Rattle.rma_exposure.specs.Fault.{reason_of, lacks_match, faults_at, faults_of, exposure_faults};
ghost use Rattle.rma_exposure.specs.inside.Epochs.{HavePartners, numbers_in, kept_of, AreEpochs, IsOfRank, Represents};

use crate::exposures::Exposures;
use crate::openings::Openings;
use crate::side::{Side, opened, opposite};
use crate::side_epochs::SideEpochs;
use rma_base::{MatchReason, Memory, Name, Rank, RankSet, Sequence};
use rma_call::{CallRef, MatchFault, RankCalls};
use std::alloc::Global;

impl Exposures {
    /// The posts and starts of a run whose calls are taken that some rank of their group does not match: all posts by rank and
    /// then by line, and then all starts.
    ///
    /// # Errors
    ///
    /// `Memory` where there is none left.
    pub fn faults(&self, alloc: Global, ranks: &[RankCalls]) -> Result<Sequence<MatchFault>, Memory>
        requires run { IsRun ranks.now }
        requires represents { Represents (calls_of ranks.now) self.now }
        ensures { IfOk result (λ faults. faults ≡ exposure_faults ranks.now) }
    {
        let mut faults = Sequence::new(alloc);
        self.push_faults(Side::Exposure, ranks, &mut faults)?;
        self.push_faults(Side::Access, ranks, &mut faults)?;
        Ok(faults)
    }

    /// Appends the faults of one side.
    fn push_faults(
        &self,
        side: Side,
        ranks: &[RankCalls],
        faults: &mut Sequence<MatchFault>,
    ) -> Result<(), Memory>
        requires run { IsRun ranks.now }
        requires represents { Represents (calls_of ranks.now) self.now }
        ensures { OnOk result (faults.new ≡ faults.old ++ faults_of side ranks.now) }
    {
        for rank in ranks {
            self.push_rank_faults(side, rank, faults)?;
        }
        Ok(())
    }

    /// Appends the faults of one side of one rank.
    fn push_rank_faults(
        &self,
        side: Side,
        rank: &RankCalls,
        faults: &mut Sequence<MatchFault>,
    ) -> Result<(), Memory>
        requires { IsOfRank rank.now.calls (kept_of self.now.ranks.entries rank.now.rank.0) }
        ensures { OnOk result ((calls : ℕ → List Call) → Represents calls self.now → calls rank.now.rank.0 ≡ rank.now.calls
            → faults.new ≡ faults.old ++ by_number (faults_at side calls rank.now.rank) 0 rank.now.calls) }
    {
        let Some(epochs) = self.ranks.get(&rank.rank()) else {
            return Ok(());
        };
        let epochs = epochs.of(side);
        if self.have_partners(side, rank.rank(), epochs) {
            return Ok(());
        }
        for (number, _) in epochs.openers.iter() {
            let call = rank.calls().get(*number as usize);
            self.judge(side, rank.rank(), *number, call, faults)?;
        }
        Ok(())
    }

    /// Whether each other rank opens as many epochs that match those of a rank, which are handed in: then all of them match.
    fn have_partners(&self, side: Side, rank: Rank, epochs: &SideEpochs) -> bool
        ensures { result ≡ true → (calls : ℕ → List Call) → Represents calls self.now → AreEpochs side (calls rank.0) epochs.now
            → (window : List ℕ) → HavePartners side window calls rank.0 }
    {
        for (window, openings) in epochs.windows.iter() {
            if !self.have_partners_on(side, window, rank, openings) {
                return false;
            }
        }
        true
    }

    /// Whether that is so of the epochs on one window.
    fn have_partners_on(&self, side: Side, window: &Name, rank: Rank, openings: &Openings) -> bool
        ensures { result ≡ true → (calls : ℕ → List Call) → Represents calls self.now
            → (other : ℕ) → length (numbers_in (Some openings.now) other) ≤ length (numbers (opposite side) window.now rank.0 (calls other)) }
    {
        for (other, own) in openings.numbers.iter() {
            let theirs = self.numbers(opposite(side), window, Rank(*other), rank);
            if own.len() > theirs.len() {
                return false;
            }
        }
        true
    }

    /// Appends the fault of a call, if it opens an epoch of the side and lacks a match.
    fn judge(
        &self,
        side: Side,
        rank: Rank,
        number: u32,
        call: CallRef<'_>,
        faults: &mut Sequence<MatchFault>,
    ) -> Result<(), Memory>
        ensures { OnOk result ((calls : ℕ → List Call) → Represents calls self.now → faults.new ≡ faults.old ++ faults_at side calls rank number (call_of call.entry)) }
    {
        let Some((window, group)) = opened(side, call.what) else {
            return Ok(());
        };
        if !self.lacks_match(side, window, group, rank, number) {
            return Ok(());
        }
        faults.push(MatchFault {
            reason: reason_of(side),
            rank,
            line: call.line,
            other: None,
        })
    }

    /// Whether some rank of the group makes no call that matches the call of this number of a rank.
    fn lacks_match(
        &self,
        side: Side,
        window: &Name,
        group: &RankSet,
        rank: Rank,
        number: u32,
    ) -> bool
        ensures { (calls : ℕ → List Call) → Represents calls self.now → result ≡ lacks_match side calls rank.0 number (record { window = window.now; group = group.now }) }
    {
        for other in group.numbers() {
            let matched = self.match_of(side, window, rank, number, Rank(*other));
            if matched.is_none() {
                return true;
            }
        }
        false
    }
}

/// The reason why a post, or a start, is at fault.
fn reason_of(side: Side) -> MatchReason
    ensures { result ≡ reason_of side }
{
    match side {
        Side::Exposure => MatchReason::PostUnmatched,
        Side::Access => MatchReason::StartUnmatched,
    }
}
