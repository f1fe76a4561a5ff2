//! A run whose races are asked for.
ghost use Rattle.std.specs.Prelude.{IfOk};
ghost use Rattle.rma_findings_probe.specs.Scene.{AreRacesOf, IsScene};

use rma_accesses::RunAccesses;
use rma_call::RankCalls;
use rma_clock::{Clocks, SharedClocks};
use rma_finding::FoundRace;
use rma_happens_before::HappensBefore;
use rma_races::races_of;
use rma_table::Failure;
use rma_window::Windows;
use std::alloc::Global;

/// A possible run of good logs.
#[derive(Clone, Copy)]
pub struct Scene<'s, 'r, 'e> {
    /// The calls of its ranks.
    pub calls: &'s [RankCalls],
    /// Its accesses, and the lists beside them.
    pub accesses: &'s RunAccesses<'r, 'e>,
    /// Its windows.
    pub windows: &'s Windows,
    /// The order of its points.
    pub order: &'s HappensBefore,
}

/// The races of a run.
///
/// # Errors
///
/// `Memory` where there is none left.
pub fn races_in(alloc: Global, scene: Scene<'_, '_, '_>) -> Result<Vec<FoundRace>, Failure>
    requires { IsScene ⟦<SharedClocks as Clocks>⟧.are_of scene }
    ensures { IfOk result (λ races. AreRacesOf scene.entry races.items) }
{
    let order = scene.order;
    let points = order.points.as_slice();
    Ok(races_of(alloc, scene.accesses, scene.windows, points, &order.clocks)?)
}
