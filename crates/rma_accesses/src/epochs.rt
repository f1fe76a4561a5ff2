//! The epochs of the ranks of a run.
ghost use Rattle.std.specs.Prelude.{◌≡◌, map, All, IfOk};
ghost use Rattle.rma_accesses.specs.Run.{AreEpochsOf, IsEpochsOf, own_of};

use rma_base::Memory;
use rma_call::{CallList, RankCalls};
use rma_epoch::{EpochFault, EpochTable, place_calls};
use rma_window::Windows;
use std::alloc::Global;

/// The windows of a run, and the epochs of each rank.
#[derive(Drop)]
pub struct RunEpochs<'r> {
    /// The windows.
    pub windows: Windows,
    /// The epochs, by rank.
    pub ranks: Vec<RankEpochs<'r>>,
}

/// The epochs of a rank.
#[derive(Drop)]
pub struct RankEpochs<'r> {
    /// The rank with its calls.
    pub own: &'r RankCalls,
    /// Its calls.
    pub calls: &'r CallList,
    /// The epochs of its sound calls.
    pub table: EpochTable,
    /// Its first epoch fault, if it has one.
    pub fault: Option<EpochFault>,
}

impl<'r> RunEpochs<'r> {
    /// Those of a run.
    ///
    /// # Errors
    ///
    /// `Memory` where there is none left, and where a rank creates a window twice: no good log does.
    pub fn of(alloc: Global, ranks: &'r [RankCalls]) -> Result<RunEpochs<'r>, Memory>
        ensures { IfOk result (AreEpochsOf ranks.now) }
    {
        let windows = Windows::of_calls(alloc, ranks)?;
        let ranks = epochs_of(alloc, &windows, ranks)?;
        Ok(RunEpochs { windows, ranks })
    }
}

/// The epochs of each rank, in a run with these windows.
fn epochs_of<'r>(
    alloc: Global,
    windows: &Windows,
    ranks: &'r [RankCalls],
) -> Result<Vec<RankEpochs<'r>>, Memory>
    ensures ranks { IfOk result (λ list. map own_of list.items ≡ ranks.now) }
    ensures each { IfOk result (λ list. All (IsEpochsOf windows.now) list.items) }
{
    let mut list = Vec::new(alloc);
    for own in ranks {
        list.push(rank_epochs(alloc, windows, own)?)?;
    }
    Ok(list)
}

/// The epochs of a rank.
fn rank_epochs<'r>(
    alloc: Global,
    windows: &Windows,
    own: &'r RankCalls,
) -> Result<RankEpochs<'r>, Memory>
    ensures rank { IfOk result (λ epochs. own_of epochs ≡ own.now) }
    ensures epochs { IfOk result (IsEpochsOf windows.now) }
{
    let calls = own.calls();
    let outcome = place_calls(alloc, calls, own.end(), windows)?;
    Ok(RankEpochs {
        own,
        calls,
        table: outcome.table,
        fault: outcome.fault,
    })
}
