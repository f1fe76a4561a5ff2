//! The posts and starts of whole logs.
ghost use Rattle.std.specs.Prelude.{◌≡◌, ◌≤◌, [], ℕ, List, Some, false, slice_get, length, IfOk, OnOk};
ghost use Rattle.rma_base.specs.Limits.{fed_limit};
ghost use Rattle.rma_call.specs.Call.{Call};
ghost use Rattle.rma_run.specs.Run.{IsRun, calls_of, with_calls};
ghost use Rattle.rma_exposure.specs.inside.Epochs.{IsNeither, Represents};

use crate::exposures::Exposures;
use crate::rank_epochs::RankEpochs;
use crate::side::opens_or_closes;
use rma_base::Memory;
use rma_call::{CallList, Group, RankCalls};
use std::alloc::Global;

impl Exposures {
    /// The posts and starts of whole logs: all calls are taken, rank by rank. The i-th log is that of rank i.
    ///
    /// # Errors
    ///
    /// `Memory` where there is none left.
    pub fn of_calls(alloc: Global, ranks: &[RankCalls]) -> Result<Exposures, Memory>
        requires { IsRun ranks.now }
        ensures { IfOk result (λ exposures. Represents (calls_of ranks.now) exposures) }
    {
        let mut exposures = Exposures::new(alloc);
        for rank in ranks {
            exposures.take_all(rank)?;
        }
        Ok(exposures)
    }

    /// Takes the calls of a rank of which none is taken yet.
    fn take_all(&mut self, rank: &RankCalls) -> Result<(), Memory>
        requires { length rank.now.calls ≤ fed_limit }
        ensures { OnOk result ((calls : ℕ → List Call) → calls rank.now.rank.0 ≡ [] → Represents calls self.old
            → Represents (with_calls calls rank.now.rank.0 rank.now.calls) self.new) }
    {
        let calls = rank.calls();
        if !may_open_or_close(calls) {
            return Ok(());
        }
        let epochs = RankEpochs::of_calls(self.alloc, calls)?;
        self.ranks.insert(rank.rank(), epochs)?;
        Ok(())
    }
}

/// Whether a call may open an epoch or close one: where not, none does. What calls do is looked at, and not each call.
fn may_open_or_close(calls: &CallList) -> bool
    ensures { result ≡ false → (i : ℕ) (call : Call) → slice_get calls.now.calls i ≡ Some call → IsNeither call.what }
{
    if !calls.has(Group::Epoch) {
        return false;
    }
    for number in 0..calls.whats() {
        if opens_or_closes(calls.what(number)) {
            return true;
        }
    }
    false
}
