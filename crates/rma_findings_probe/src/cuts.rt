//! The cuts that show the races of a row, and others that may.
ghost use Rattle.rma_findings_probe.specs.Scene.{AreRacesOf, IsScene};

use crate::given::given_in;
use crate::scene::Scene;
use crate::shown::is_shown;
use rma_clock::{Clocks, SharedClocks};
use rma_cut::Cuts;
use rma_explain::cuts_of_race;
use rma_finding::FoundRace;
use rma_order::call_counts;
use rma_table::Failure;
use std::io;

/// Prints the least cuts that show each race of a run, and of each two given ones whether they show it.
///
/// # Errors
///
/// `Row` where what is given is not two cuts for a race of the run, and `Memory` where there is none left.
pub fn print_cuts(
    rt: HostRuntime,
    scene: Scene<'_, '_, '_>,
    races: &[FoundRace],
    given: &[String],
) -> Result<(), Failure>
    requires scene { IsScene ⟦<SharedClocks as Clocks>⟧.are_of scene }
    requires races { AreRacesOf scene races.now }
{
    print_least(rt, scene, races)?;
    let lens = call_counts(rt.alloc(), scene.calls)?;
    'given: for words in given {
        print_given(rt, scene, &lens, races, words)?;
    }
    Ok(())
}

/// Prints the least cuts for each race.
fn print_least(
    rt: HostRuntime,
    scene: Scene<'_, '_, '_>,
    races: &[FoundRace],
) -> Result<(), Failure>
    requires scene { IsScene ⟦<SharedClocks as Clocks>⟧.are_of scene }
    requires races { AreRacesOf scene races.now }
{
    'races: for index in 0..races.len() {
        let cuts = cuts_of_race(
            rt.alloc(),
            &races[index],
            scene.calls,
            scene.accesses,
            scene.windows,
            scene.order,
        )?;
        print_numbered(rt, index, &cuts)?;
    }
    Ok(())
}

/// Prints the cuts for the race at an index.
fn print_numbered(rt: HostRuntime, index: usize, cuts: &Cuts) -> io::Result<()> {
    print!(rt; "= least {} ", index.saturating_add(1))?;
    print_cut(rt, cuts.first.as_slice())?;
    print!(rt; " ")?;
    print_cut(rt, cuts.second.as_slice())?;
    println!(rt; "")
}

/// Prints a cut.
fn print_cut(rt: HostRuntime, cut: &[u32]) -> io::Result<()> {
    let mut comma = "";
    for number in cut {
        print!(rt; "{comma}{number}")?;
        comma = ",";
    }
    Ok(())
}

/// Prints whether two given cuts show the race that stands before them.
fn print_given(
    rt: HostRuntime,
    scene: Scene<'_, '_, '_>,
    lens: &[u32],
    races: &[FoundRace],
    words: &str,
) -> Result<(), Failure>
    requires scene { IsScene ⟦<SharedClocks as Clocks>⟧.are_of scene }
{
    let given = given_in(rt.alloc(), words)?;
    let Some(race) = races.get((given.race as usize).wrapping_sub(1)) else {
        return Err(Failure::Row);
    };
    if is_shown(scene, lens, race, &given.cuts) {
        println!(rt; "= yes")?;
    } else {
        println!(rt; "= no")?;
    }
    Ok(())
}
