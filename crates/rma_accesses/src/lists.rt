//! The lists beside the accesses of a run.
ghost use Rattle.std.specs.Prelude.{◌≤◌, [], List, length, All, IfOk, OnOk};
ghost use Rattle.rma_base.specs.Limits.{fed_limit};
ghost use Rattle.rma_call.specs.Call.{RankCalls};
ghost use Rattle.rma_run.specs.Run.{IsRun};
ghost use Rattle.rma_visibility.specs.Visibility.{AreListed};
ghost use Rattle.rma_accesses.specs.Run.{AreEpochsOf, IsEpochsOf, own_of};
ghost use Rattle.rma_accesses.specs.inside.Listing.{ArePosted, HasMore, IsListed};

use crate::epochs::{RankEpochs, RunEpochs};
use rma_base::Memory;
use rma_exposed::list_epochs;
use rma_rules::Spans;
use rma_visibility::list_calls;
use rma_window::Windows;
use std::alloc::Global;

/// The lists of a run with these epochs, but for the exposures between fences.
///
/// # Errors
///
/// `Memory` where there is none left.
pub(crate) fn posted_lists(alloc: Global, epochs: &RunEpochs<'_>) -> Result<Spans, Memory>
    requires { (ranks : List RankCalls) × IsRun ranks × AreEpochsOf ranks epochs.now }
    ensures { IfOk result (λ spans. (ranks : List RankCalls) → IsRun ranks → AreEpochsOf ranks epochs.now → ArePosted ranks spans) }
{
    let mut spans = Spans::new(alloc);
    for own in epochs.ranks.as_slice() {
        list_rank(&mut spans, &epochs.windows, own)?;
    }
    Ok(spans)
}

/// Adds what is listed of a rank, of which nothing is listed yet.
fn list_rank(spans: &mut Spans, windows: &Windows, epochs: &RankEpochs<'_>) -> Result<(), Memory>
    requires few { length (own_of epochs.now).calls ≤ fed_limit }
    requires epochs { IsEpochsOf windows.now epochs.now }
    requires none { AreListed windows.now (own_of epochs.now).rank [] spans.old }
    ensures own { OnOk result (IsListed windows.now (own_of epochs.now) spans.new) }
    ensures more { OnOk result (HasMore windows.now (own_of epochs.now) spans.old spans.new) }
{
    let rank = epochs.own.rank();
    list_calls(spans, windows, rank, epochs.calls, &epochs.table)?;
    list_epochs(spans, rank, epochs.calls, epochs.table.epochs())
}
