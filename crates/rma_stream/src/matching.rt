//! What the matching of calls finds.
ghost use Rattle.std.specs.Prelude.{◌≡◌, map, IfOk};
ghost use Rattle.rma_run.specs.Run.{IsRun};
ghost use Rattle.rma_match.specs.Matches.{AreMatches};
ghost use Rattle.rma_report.specs.declared.finding.Finding.TheVariants.{Mismatch};
ghost use Rattle.rma_sync.specs.Matching.{match_faults};

use rma_base::{Memory, Sequence};
use rma_call::RankCalls;
use rma_match::Matches;
use rma_report::{Finding, FindingList};
use rma_sync::match_faults;
use std::alloc::Global;

/// The calls that the calls of other ranks do not match, as findings.
///
/// # Errors
///
/// `Memory` where there is none left.
pub(crate) fn mismatches(
    alloc: Global,
    calls: &[RankCalls],
    matches: &Matches,
) -> Result<FindingList, Memory>
    requires run { IsRun calls.now }
    requires matches { AreMatches calls.now matches.now }
    ensures { IfOk result (λ list. list ≡ map Mismatch (match_faults calls.now)) }
{
    let faults = match_faults(alloc, calls, matches)?;
    let mut list = Sequence::new(alloc);
    for fault in faults.as_slice() {
        list.push(Finding::Mismatch(*fault))?;
    }
    Ok(list)
}
