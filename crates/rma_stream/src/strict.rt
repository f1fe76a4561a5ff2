//! What is found of assertions and of the memory of dynamic windows.
ghost use Rattle.std.specs.Prelude.{◌≡◌, map, IfOk};
ghost use Rattle.rma_accesses.specs.Run.{AreGood};
ghost use Rattle.rma_accesses.specs.inside.Kept.{AreAccessesOf};
ghost use Rattle.rma_happens_before.specs.RunOrder.{IsHappensBefore};
ghost use Rattle.rma_match.specs.Matches.{AreMatches};
ghost use Rattle.rma_window.specs.Creation.{creations};
ghost use Rattle.rma_window.specs.Windows.{windows_by};
ghost use Rattle.rma_stream.specs.Strict.{AreAssertions, AreRegions, AreStrict, assertion_finding, region_finding};

use rma_accesses::RunAccesses;
use rma_assert::{BrokenAssertion, broken_assertions};
use rma_base::{Memory, Sequence};
use rma_call::RankCalls;
use rma_clock::{Clocks, SharedClocks};
use rma_dyn::{RegionFault, region_faults};
use rma_happens_before::HappensBefore;
use rma_match::Matches;
use rma_report::{Finding, FindingList};
use rma_window::Windows;
use std::alloc::Global;

/// The assertions of a possible run of good logs that do not hold, or, where all do, the faults of the memory of its dynamic windows.
///
/// # Errors
///
/// `Memory` where there is none left.
pub(crate) fn strict_findings(
    alloc: Global,
    calls: &[RankCalls],
    matches: &Matches,
    windows: &Windows,
    accesses: &RunAccesses<'_, '_>,
    order: &HappensBefore,
) -> Result<FindingList, Memory>
    requires good { AreGood calls.now }
    requires matches { AreMatches calls.now matches.now }
    requires windows { windows.now ≡ windows_by (creations calls.now) }
    requires accesses { AreAccessesOf calls.now accesses.now }
    requires order { IsHappensBefore ⟦<SharedClocks as Clocks>⟧.are_of calls.now order.now }
    ensures { IfOk result (AreStrict calls.now) }
{
    let assertions = assertion_findings(alloc, calls, matches, windows, accesses, order)?;
    if assertions.is_empty() {
        region_findings(alloc, calls, windows, accesses, order)
    } else {
        Ok(assertions)
    }
}

/// The assertions that do not hold.
fn assertion_findings(
    alloc: Global,
    calls: &[RankCalls],
    matches: &Matches,
    windows: &Windows,
    accesses: &RunAccesses<'_, '_>,
    order: &HappensBefore,
) -> Result<FindingList, Memory>
    requires good { AreGood calls.now }
    requires matches { AreMatches calls.now matches.now }
    requires windows { windows.now ≡ windows_by (creations calls.now) }
    requires accesses { AreAccessesOf calls.now accesses.now }
    requires order { IsHappensBefore ⟦<SharedClocks as Clocks>⟧.are_of calls.now order.now }
    ensures { IfOk result (AreAssertions calls.now) }
{
    let broken = broken_assertions(alloc, calls, matches, windows, accesses, &order.clocks)?;
    of_assertions(alloc, &broken)
}

/// The faults of the memory of dynamic windows.
fn region_findings(
    alloc: Global,
    calls: &[RankCalls],
    windows: &Windows,
    accesses: &RunAccesses<'_, '_>,
    order: &HappensBefore,
) -> Result<FindingList, Memory>
    requires good { AreGood calls.now }
    requires windows { windows.now ≡ windows_by (creations calls.now) }
    requires accesses { AreAccessesOf calls.now accesses.now }
    requires order { IsHappensBefore ⟦<SharedClocks as Clocks>⟧.are_of calls.now order.now }
    ensures { IfOk result (AreRegions calls.now) }
{
    let faults = region_faults(alloc, calls, accesses, windows, &order.clocks)?;
    of_regions(alloc, &faults)
}

/// Assertions that do not hold, as findings.
fn of_assertions(alloc: Global, broken: &[BrokenAssertion]) -> Result<FindingList, Memory>
    ensures { IfOk result (λ list. list ≡ map assertion_finding broken.now) }
{
    let mut list = Sequence::new(alloc);
    for one in broken {
        list.push(Finding::Strict((*one).into()))?;
    }
    Ok(list)
}

/// Faults of the memory of dynamic windows, as findings.
fn of_regions(alloc: Global, faults: &[RegionFault]) -> Result<FindingList, Memory>
    ensures { IfOk result (λ list. list ≡ map region_finding faults.now) }
{
    let mut list = Sequence::new(alloc);
    for fault in faults {
        list.push(Finding::Strict((*fault).into()))?;
    }
    Ok(list)
}
