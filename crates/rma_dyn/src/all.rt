//! All faults of the memory of dynamic windows.
ghost use Rattle.std.specs.Prelude.{◌≡◌, IfOk};
ghost use Rattle.rma_clock.specs.Reached.{points_of};
ghost use Rattle.rma_link.specs.declared.links.Links.{Links};
ghost use Rattle.rma_run.specs.Run.{lens_of};
ghost use Rattle.rma_window.specs.Creation.{creations};
ghost use Rattle.rma_window.specs.Windows.{windows_by};
ghost use Rattle.rma_accesses.specs.Run.{AreGood};
ghost use Rattle.rma_accesses.specs.inside.Kept.{AreAccessesOf};
ghost use Rattle.rma_dyn.specs.Fault.{AreRegionFaults};

use crate::attaches::add_attaches;
use crate::detaches::add_detaches;
use crate::fault::RegionFault;
use crate::order::in_order;
use crate::overlap::lasts_of;
use crate::regions::{found_in, known_of};
use rma_accesses::RunAccesses;
use rma_base::Memory;
use rma_call::RankCalls;
use rma_clock::Clocks;
use rma_window::Windows;
use std::alloc::Global;

/// All faults of the memory of the dynamic windows of a run of good logs: of its attaches, its detaches, and its accesses.
///
/// The attaches and detaches are sorted once, and each fault is found by a binary search of them; an access also asks the clocks a
/// logarithm of the calls of the rank whose memory it touches.
///
/// # Errors
///
/// `Memory` where there is none left.
pub fn region_faults<C: Clocks>(
    alloc: Global,
    ranks: &[RankCalls],
    run: &RunAccesses<'_, '_>,
    windows: &Windows,
    clocks: &C,
) -> Result<Vec<RegionFault>, Memory>
    requires good { AreGood ranks.now }
    requires accesses { AreAccessesOf ranks.now run.now }
    requires windows { windows.now ≡ windows_by (creations ranks.now) }
    requires clocks { (links : Links) × C.are_of clocks.now (points_of (lens_of ranks.now)) links }
    ensures { IfOk result (λ list. (links : Links) → C.are_of clocks.now (points_of (lens_of ranks.now)) links → AreRegionFaults links ranks.now list.items) }
{
    let known = known_of(alloc, ranks, windows)?;
    let list = known.list.as_slice();
    let lasts = lasts_of(alloc, list)?;
    let mut found = found_in(alloc, ranks, run, windows, &known, clocks)?;
    add_detaches(&mut found, list)?;
    add_attaches(&mut found, list, known.reaches.as_slice(), lasts.as_slice())?;
    in_order(alloc, found)
}
