//! The cuts that show one of the races that are found.
ghost use Rattle.std.specs.Prelude.{◌≡◌, ◌≤◌, IfOk, option_map};
ghost use Rattle.rma_accesses.specs.Run.{AreGood};
ghost use Rattle.rma_accesses.specs.inside.Kept.{AreAccessesOf};
ghost use Rattle.rma_happens_before.specs.RunOrder.{IsHappensBefore};
ghost use Rattle.rma_window.specs.Creation.{creations};
ghost use Rattle.rma_window.specs.Windows.{windows_by};
ghost use Rattle.rma_stream.specs.Explained.{AreCutsAt, race_at};
ghost use Rattle.rma_stream.specs.Findings.{AreFaults};

use rma_accesses::RunAccesses;
use rma_base::Memory;
use rma_call::RankCalls;
use rma_clock::{Clocks, SharedClocks};
use rma_cut::Cuts;
use rma_explain::cuts_of_race;
use rma_finding::{FoundRace, PairFinding};
use rma_happens_before::HappensBefore;
use rma_report::Finding;
use rma_window::Windows;
use std::alloc::Global;

/// The cuts that show the finding of this number, counted from 1, where it is a race of a possible run of good logs in which this was found.
///
/// # Errors
///
/// `Memory` where there is none left.
pub(crate) fn cuts_at(
    alloc: Global,
    found: &[Finding],
    number: u32,
    calls: &[RankCalls],
    windows: &Windows,
    accesses: &RunAccesses<'_, '_>,
    order: &HappensBefore,
) -> Result<Option<Cuts>, Memory>
    requires number { 1 ≤ number }
    requires found { AreFaults calls.now found.now }
    requires good { AreGood calls.now }
    requires windows { windows.now ≡ windows_by (creations calls.now) }
    requires accesses { AreAccessesOf calls.now accesses.now }
    requires order { IsHappensBefore ⟦<SharedClocks as Clocks>⟧.are_of calls.now order.now }
    ensures { IfOk result (AreCutsAt calls.now found.now number) }
{
    match race_at(found, number) {
        Some(race) => Ok(Some(cuts_of_race(alloc, race, calls, accesses, windows, order)?)),
        None => Ok(None),
    }
}

/// The race that is the finding of this number, counted from 1, if it is one.
fn race_at(found: &[Finding], number: u32) -> Option<&FoundRace>
    requires { 1 ≤ number }
    ensures { option_map (λ race. race.now) result ≡ race_at found.now number }
{
    match found.get(number as usize - 1) {
        Some(Finding::Pair(PairFinding::Race(race))) => Some(race),
        _ => None,
    }
}
