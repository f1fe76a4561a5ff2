//! The cuts that show a race.
ghost use Rattle.std.specs.Prelude.{◌≡◌, Contains, IfOk};
ghost use Rattle.rma_link.specs.declared.links.Links.{Links};
ghost use Rattle.rma_window.specs.Creation.{creations};
ghost use Rattle.rma_window.specs.Windows.{windows_by};
ghost use Rattle.rma_rules.specs.Before.{Before};
ghost use Rattle.rma_run.specs.Run.{lens_of};
ghost use Rattle.rma_span.specs.Span.{accesses};
ghost use Rattle.rma_accesses.specs.Run.{AreGood};
ghost use Rattle.rma_accesses.specs.inside.Kept.{AreAccessesOf};
ghost use Rattle.rma_order.specs.RunLinks.{links_of};
ghost use Rattle.rma_happens_before.specs.RunOrder.{IsHappensBefore};
ghost use Rattle.rma_pairs.specs.Races.{IsFound};
ghost use Rattle.rma_cut.specs.Show.{AreLeast, ShowRace};
ghost use Rattle.rma_explain.specs.Explanation.{AreCutsOf};

use crate::named::access_named;
use rma_accesses::RunAccesses;
use rma_base::Memory;
use rma_call::RankCalls;
use rma_clock::{Clocks, SharedClocks};
use rma_cut::{Cuts, check_cuts, cuts_for};
use rma_finding::FoundRace;
use rma_happens_before::HappensBefore;
use rma_order::call_counts;
use rma_rules::Access;
use rma_window::Windows;
use std::alloc::Global;

/// The least two cuts that show a race that was found in a run of good logs, and that [`check_cuts`] accepts.
///
/// # Errors
///
/// `Memory` where there is none left, also where there are more ranks than a run may have.
pub fn cuts_of_race(
    alloc: Global,
    race: &FoundRace,
    ranks: &[RankCalls],
    run: &RunAccesses<'_, '_>,
    windows: &Windows,
    order: &HappensBefore,
) -> Result<Cuts, Memory>
    requires good { AreGood ranks.now }
    requires accesses { AreAccessesOf ranks.now run.now }
    requires windows { windows.now ≡ windows_by (creations ranks.now) }
    requires order { IsHappensBefore ⟦<SharedClocks as Clocks>⟧.are_of ranks.now order.now }
    requires found { IsFound (links_of ranks.now) (windows_by (creations ranks.now)) run.now.lists (accesses ranks.now) race.now }
    ensures { IfOk result (AreCutsOf (links_of ranks.now) (lens_of ranks.now) (windows_by (creations ranks.now)) run.now.lists (accesses ranks.now) race.now) }
{
    let Some(a) = access_named(ranks, run, race.first) else {
        unreachable!();
    };
    let Some(b) = access_named(ranks, run, race.second) else {
        unreachable!();
    };
    cuts_between(alloc, &a, &b, ranks, run, windows, order)
}

/// The least two cuts that show that neither of two accesses of a run is before the other.
///
/// # Errors
///
/// `Memory` where there is none left, also where there are more ranks than a run may have.
fn cuts_between(
    alloc: Global,
    a: &Access<'_>,
    b: &Access<'_>,
    ranks: &[RankCalls],
    run: &RunAccesses<'_, '_>,
    windows: &Windows,
    order: &HappensBefore,
) -> Result<Cuts, Memory>
    requires good { AreGood ranks.now }
    requires accesses { AreAccessesOf ranks.now run.now }
    requires windows { windows.now ≡ windows_by (creations ranks.now) }
    requires order { IsHappensBefore ⟦<SharedClocks as Clocks>⟧.are_of ranks.now order.now }
    requires a { Contains (accesses ranks.now) a.now }
    requires b { Contains (accesses ranks.now) b.now }
    requires not_before { ¬ Before (links_of ranks.now) windows.now run.now.lists a.now b.now }
    requires not_after { ¬ Before (links_of ranks.now) windows.now run.now.lists b.now a.now }
    ensures { IfOk result (λ cuts. ShowRace (links_of ranks.now) (lens_of ranks.now) windows.now run.now.lists a.now b.now cuts × AreLeast (links_of ranks.now) (lens_of ranks.now) windows.now run.now.lists a.now b.now cuts) }
{
    let counts = call_counts(alloc, ranks)?;
    let lens = counts.as_slice();
    let cuts = cuts_for(alloc, a, b, &run.lists, windows, lens, &order.clocks)?;
    if !check_cuts(a, b, &cuts, &run.lists, windows, lens, &order.links) {
        unreachable!();
    }
    Ok(cuts)
}
