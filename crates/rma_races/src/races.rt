//! The races of a run.
ghost use Rattle.std.specs.Prelude.{◌↔◌, Contains, List, IfOk};
ghost use Rattle.rma_call.specs.Call.{RankCalls};
ghost use Rattle.rma_clock.specs.Reached.{points_of};
ghost use Rattle.rma_link.specs.declared.links.Links.{Links};
ghost use Rattle.rma_run.specs.Run.{lens_of};
ghost use Rattle.rma_span.specs.Span.{accesses};
ghost use Rattle.rma_pairs.specs.Races.{AreRaces, IsFound};
ghost use Rattle.rma_finding.specs.declared.finding.FoundRace.{FoundRace};
ghost use Rattle.rma_races.specs.Run.{AreOfRun};

use crate::taking::Taking;
use rma_accesses::RunAccesses;
use rma_base::{Memory, Point};
use rma_clock::Clocks;
use rma_finding::FoundRace;
use rma_history::ModelledWindows;
use rma_pairs::in_order;
use rma_window::Windows;
use std::alloc::Global;

/// The races of a run of good logs with these accesses and windows, in the order of the report. The points are all those of the run;
/// the fewer accesses are kept at a time, the closer their order is to one in which they may come.
///
/// # Errors
///
/// `Memory` where there is none left.
pub fn races_of<C: Clocks>(
    alloc: Global,
    run: &RunAccesses<'_, '_>,
    windows: &Windows,
    points: &[Point],
    clocks: &C,
) -> Result<Vec<FoundRace>, Memory>
    requires { (ranks : List RankCalls) × (links : Links) × AreOfRun ranks run.now windows.now points.now × C.are_of clocks.now (points_of (lens_of ranks)) links }
    ensures { IfOk result (λ races. (ranks : List RankCalls) (links : Links) → AreOfRun ranks run.now windows.now points.now → C.are_of clocks.now (points_of (lens_of ranks)) links
        → AreRaces links windows.now run.now.lists (accesses ranks) races.items) }
{
    let found = found_in(alloc, run, windows, points, clocks)?;
    Ok(in_order(found))
}

/// The same in any order.
fn found_in<C: Clocks>(
    alloc: Global,
    run: &RunAccesses<'_, '_>,
    windows: &Windows,
    points: &[Point],
    clocks: &C,
) -> Result<Vec<FoundRace>, Memory>
    requires { (ranks : List RankCalls) × (links : Links) × AreOfRun ranks run.now windows.now points.now × C.are_of clocks.now (points_of (lens_of ranks)) links }
    ensures { IfOk result (λ races. (ranks : List RankCalls) (links : Links) → AreOfRun ranks run.now windows.now points.now → C.are_of clocks.now (points_of (lens_of ranks)) links
        → (race : FoundRace) → Contains races.items race ↔ IsFound links windows.now run.now.lists (accesses ranks) race) }
{
    let windows = ModelledWindows::of(windows);
    let mut taking = Taking::new(alloc, &run.ranks)?;
    for point in points {
        let rank = point.rank.0 as usize;
        taking.take_through(
            alloc,
            rank,
            &run.ranks[rank],
            point.pos / 2,
            &run.lists,
            &windows,
            clocks,
        )?;
    }
    Ok(taking.found)
}
