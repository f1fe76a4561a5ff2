//! What is found of epochs and of pairs.
ghost use Rattle.std.specs.Prelude.{◌≡◌, ◌++◌, List, IfOk, OnOk};
ghost use Rattle.rma_call.specs.Call.{RankCalls};
ghost use Rattle.rma_accesses.specs.Run.{AreEpochsOf, AreGood};
ghost use Rattle.rma_accesses.specs.inside.Kept.{AreAccessesOf};
ghost use Rattle.rma_happens_before.specs.RunOrder.{IsHappensBefore};
ghost use Rattle.rma_window.specs.Creation.{creations};
ghost use Rattle.rma_window.specs.Windows.{windows_by};
ghost use Rattle.rma_report.specs.declared.finding.Finding.{Finding};
ghost use Rattle.rma_stream.specs.Findings.{AreFaults, ArePairs};

use crate::epochs::epoch_findings;
use crate::pairs::{push_doubled, push_exposed, push_races};
use rma_accesses::{RunAccesses, RunEpochs};
use rma_base::Memory;
use rma_clock::{Clocks, SharedClocks};
use rma_concurrent::concurrent_epochs;
use rma_happens_before::HappensBefore;
use rma_races::races_of;
use rma_report::FindingList;
use rma_window::Windows;
use std::alloc::Global;

/// The epoch faults of a possible run of good logs with these epochs and accesses, and then what is found of pairs among its sound calls.
///
/// # Errors
///
/// `Memory` where there is none left.
pub(crate) fn fault_findings(
    alloc: Global,
    epochs: &RunEpochs<'_>,
    accesses: &RunAccesses<'_, '_>,
    order: &HappensBefore,
) -> Result<FindingList, Memory>
    requires { (ranks : List RankCalls) × AreGood ranks × AreEpochsOf ranks epochs.now × AreAccessesOf ranks accesses.now × IsHappensBefore ⟦<SharedClocks as Clocks>⟧.are_of ranks order.now }
    ensures { IfOk result (λ list. (ranks : List RankCalls) → AreGood ranks → AreEpochsOf ranks epochs.now → AreAccessesOf ranks accesses.now → IsHappensBefore ⟦<SharedClocks as Clocks>⟧.are_of ranks order.now → AreFaults ranks list) }
{
    let mut list = epoch_findings(alloc, epochs)?;
    add_pairs(alloc, accesses, &epochs.windows, order, &mut list)?;
    Ok(list)
}

/// Appends what is found of pairs in a run with these accesses and windows.
fn add_pairs(
    alloc: Global,
    accesses: &RunAccesses<'_, '_>,
    windows: &Windows,
    order: &HappensBefore,
    list: &mut FindingList,
) -> Result<(), Memory>
    requires { (ranks : List RankCalls) × AreGood ranks × AreAccessesOf ranks accesses.now × (windows.now ≡ windows_by (creations ranks)) × IsHappensBefore ⟦<SharedClocks as Clocks>⟧.are_of ranks order.now }
    ensures { OnOk result ((ranks : List RankCalls) → AreGood ranks → AreAccessesOf ranks accesses.now → windows.now ≡ windows_by (creations ranks) → IsHappensBefore ⟦<SharedClocks as Clocks>⟧.are_of ranks order.now
        → (pairs : List Finding) × ArePairs ranks pairs × (list.new ≡ list.old ++ pairs)) }
{
    let races = races_of(
        alloc,
        accesses,
        windows,
        order.points.as_slice(),
        &order.clocks,
    )?;
    let concurrent = concurrent_epochs(alloc, &accesses.lists, windows, &order.clocks)?;
    push_races(list, races)?;
    push_exposed(list, concurrent.exposed)?;
    push_doubled(list, concurrent.doubled)
}
