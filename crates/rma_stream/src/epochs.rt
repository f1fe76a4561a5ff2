//! What is found of epochs.
ghost use Rattle.std.specs.Prelude.{◌≡◌, ◌++◌, [], IfOk, List, OnOk};
ghost use Rattle.std.specs.List.{cons_option};
ghost use Rattle.rma_call.specs.Call.{RankCalls};
ghost use Rattle.rma_window.specs.Windows.{Window};
ghost use Rattle.rma_accesses.specs.Run.{AreEpochsOf, IsEpochsOf, own_of};
ghost use Rattle.rma_stream.specs.Findings.{epoch_faults, epoch_finding};

use rma_accesses::{RankEpochs, RunEpochs};
use rma_base::{Memory, Sequence};
use rma_report::{Finding, FindingList};
use std::alloc::Global;

/// The first call of each rank of a run that stands in no epoch which allows it, as findings.
///
/// # Errors
///
/// `Memory` where there is none left.
pub(crate) fn epoch_findings(alloc: Global, epochs: &RunEpochs<'_>) -> Result<FindingList, Memory>
    requires { (ranks : List RankCalls) × AreEpochsOf ranks epochs.now }
    ensures { IfOk result (λ list. (ranks : List RankCalls) → AreEpochsOf ranks epochs.now → list ≡ epoch_faults ranks) }
{
    let mut list = Sequence::new(alloc);
    for own in epochs.ranks.as_slice() {
        push_fault(own, &mut list)?;
    }
    Ok(list)
}

/// Appends the first epoch fault of a rank, if it has one.
fn push_fault(own: &RankEpochs<'_>, list: &mut FindingList) -> Result<(), Memory>
    requires { (windows : List Window) × IsEpochsOf windows own.now }
    ensures { OnOk result ((windows : List Window) → IsEpochsOf windows own.now → list.new ≡ list.old ++ cons_option (epoch_finding windows (own_of own.now)) []) }
{
    match own.fault {
        Some(fault) => list.push(Finding::Epoch {
            rank: own.own.rank(),
            line: fault.line,
            reason: fault.reason,
        }),
        None => Ok(()),
    }
}
