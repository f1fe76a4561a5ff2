//! The calls of a run, scanned once.
ghost use Rattle.std.specs.Prelude.{◌≡◌, ◌+◌, ◌++◌, [], ◌∷◌, List, length, IfOk, OnOk};
ghost use Rattle.rma_call.specs.Call.{Call, RankCalls, call_of};
ghost use Rattle.rma_agreement.specs.Collective.{so_far};
ghost use Rattle.rma_difference.specs.inside.Scan.{HasScanned};

use crate::all_rounds::AllRounds;
use rma_base::{Memory, Rank, RankSet, Sequence};
use rma_call::{CallRef, RankCalls};
use rma_member::{Declaration, WindowAttributes, push_declaration};
use std::alloc::Global;

/// What the calls of a run declare, and their rounds.
#[derive(Drop)]
pub(crate) struct Scan {
    pub(crate) comms: Sequence<Declaration<RankSet>>,
    pub(crate) creations: Sequence<Declaration<WindowAttributes>>,
    pub(crate) rounds: AllRounds,
}

impl Scan {
    /// Scans the calls by rank and then by line.
    pub(crate) fn new(alloc: Global, ranks: &[RankCalls]) -> Result<Scan, Memory>
        ensures { IfOk result (λ scan. HasScanned ranks.now (length ranks.now) scan) }
    {
        let mut scan = Scan::empty(alloc);
        for (index, rank) in ranks.iter().enumerate() {
            scan.scan_rank(alloc, index, rank)?;
        }
        Ok(scan)
    }

    /// No calls.
    fn empty(alloc: Global) -> Scan
        ensures { HasScanned [] 0 result }
    {
        Scan {
            comms: Sequence::new(alloc),
            creations: Sequence::new(alloc),
            rounds: AllRounds::new(alloc),
        }
    }

    /// Scans the calls of the next rank.
    fn scan_rank(&mut self, alloc: Global, index: usize, rank: &RankCalls) -> Result<(), Memory>
        ensures { OnOk result ((done : List RankCalls) → length done ≡ index → HasScanned done index self.old
            → HasScanned (done ++ rank.now ∷ []) (index + 1) self.new) }
    {
        let calls = rank.calls();
        for i in 0..calls.len() {
            self.scan(alloc, index, rank.rank(), calls.get(i))?;
        }
        Ok(())
    }

    /// Scans the next call of the current rank.
    fn scan(
        &mut self,
        alloc: Global,
        index: usize,
        rank: Rank,
        call: CallRef<'_>,
    ) -> Result<(), Memory>
        ensures { OnOk result ((done : List RankCalls) (own : RankCalls) (before : List Call) → length done ≡ index → own.rank ≡ rank
            → HasScanned (so_far done own before) index self.old → HasScanned (so_far done own (before ++ call_of call.entry ∷ [])) index self.new) }
    {
        push_declaration(rank, call, &mut self.comms)?;
        push_declaration(rank, call, &mut self.creations)?;
        self.rounds.scan(alloc, index, rank, call)?;
        Ok(())
    }
}
