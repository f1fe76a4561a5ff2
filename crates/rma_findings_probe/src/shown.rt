//! Whether cuts show a race, and whether they are the least.
ghost use Rattle.std.specs.Prelude.{Contains};
ghost use Rattle.rma_span.specs.Span.{accesses};
ghost use Rattle.rma_findings_probe.specs.Scene.{AreRacesOf, IsRaceOf, IsScene};

use crate::given::with_less;
use crate::scene::Scene;
use rma_clock::{Clocks, SharedClocks};
use rma_cut::{Cuts, check_cuts};
use rma_explain::{access_named, cuts_of_race};
use rma_finding::FoundRace;
use rma_order::call_counts;
use rma_rules::Access;
use rma_table::Failure;
use std::alloc::Global;

/// Prints how many races a run has, and how many of them are shown by cuts that are the least.
///
/// # Errors
///
/// `Memory` where there is none left.
pub fn print_shown(
    rt: HostRuntime,
    scene: Scene<'_, '_, '_>,
    races: &[FoundRace],
) -> Result<(), Failure>
    requires scene { IsScene ⟦<SharedClocks as Clocks>⟧.are_of scene }
    requires races { AreRacesOf scene races.now }
{
    let lens = call_counts(rt.alloc(), scene.calls)?;
    let mut shown = 0u64;
    'races: for race in races {
        if has_least(rt.alloc(), scene, &lens, race)? {
            shown = shown.saturating_add(1);
        }
    }
    println!(rt; "= {} races, {} shown by least cuts", races.len(), shown)?;
    Ok(())
}

/// Whether the cuts that are made for a race show it, and no longer do once any of their numbers is one less.
fn has_least(
    alloc: Global,
    scene: Scene<'_, '_, '_>,
    lens: &[u32],
    race: &FoundRace,
) -> Result<bool, Failure>
    requires scene { IsScene ⟦<SharedClocks as Clocks>⟧.are_of scene }
    requires race { IsRaceOf scene race.now }
{
    let cuts = cuts_of_race(
        alloc,
        race,
        scene.calls,
        scene.accesses,
        scene.windows,
        scene.order,
    )?;
    if !is_shown(scene, lens, race, &cuts) {
        return Ok(false);
    }
    if is_shown_with_less_first(alloc, scene, lens, race, &cuts)? {
        return Ok(false);
    }
    Ok(!is_shown_with_less_second(alloc, scene, lens, race, &cuts)?)
}

/// Whether two cuts show it where a number of the first is one less.
fn is_shown_with_less_first(
    alloc: Global,
    scene: Scene<'_, '_, '_>,
    lens: &[u32],
    race: &FoundRace,
    cuts: &Cuts,
) -> Result<bool, Failure>
    requires scene { IsScene ⟦<SharedClocks as Clocks>⟧.are_of scene }
{
    let first = cuts.first.as_slice();
    let second = cuts.second.as_slice();
    'ranks: for rank in 0..first.len() {
        let smaller = Cuts {
            first: with_less(alloc, first, rank)?,
            second: with_less(alloc, second, second.len())?,
        };
        if first[rank] > 0 && is_shown(scene, lens, race, &smaller) {
            return Ok(true);
        }
    }
    Ok(false)
}

/// Whether two cuts show it where a number of the second is one less.
fn is_shown_with_less_second(
    alloc: Global,
    scene: Scene<'_, '_, '_>,
    lens: &[u32],
    race: &FoundRace,
    cuts: &Cuts,
) -> Result<bool, Failure>
    requires scene { IsScene ⟦<SharedClocks as Clocks>⟧.are_of scene }
{
    let first = cuts.first.as_slice();
    let second = cuts.second.as_slice();
    'ranks: for rank in 0..second.len() {
        let smaller = Cuts {
            first: with_less(alloc, first, first.len())?,
            second: with_less(alloc, second, rank)?,
        };
        if second[rank] > 0 && is_shown(scene, lens, race, &smaller) {
            return Ok(true);
        }
    }
    Ok(false)
}

/// Whether two cuts show a race of a run.
pub fn is_shown(scene: Scene<'_, '_, '_>, lens: &[u32], race: &FoundRace, cuts: &Cuts) -> bool
    requires { IsScene ⟦<SharedClocks as Clocks>⟧.are_of scene }
{
    let Some(first) = access_named(scene.calls, scene.accesses, race.first) else {
        return false;
    };
    let Some(second) = access_named(scene.calls, scene.accesses, race.second) else {
        return false;
    };
    are_shown(scene, lens, &first, &second, cuts)
}

/// Whether two cuts show that neither of two accesses of a run is before the other.
fn are_shown(
    scene: Scene<'_, '_, '_>,
    lens: &[u32],
    first: &Access<'_>,
    second: &Access<'_>,
    cuts: &Cuts,
) -> bool
    requires scene { IsScene ⟦<SharedClocks as Clocks>⟧.are_of scene }
    requires first { Contains (accesses scene.calls.now) first.now }
    requires second { Contains (accesses scene.calls.now) second.now }
{
    check_cuts(
        first,
        second,
        cuts,
        &scene.accesses.lists,
        scene.windows,
        lens,
        &scene.order.links,
    )
}
