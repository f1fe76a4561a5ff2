//! How far the first passes of an audit come: calls that do not match, and calls that are never left.
ghost use Rattle.std.specs.Prelude.{IfOk};
ghost use Rattle.rma_accesses.specs.Run.{AreGood};
ghost use Rattle.rma_match.specs.Matches.{AreMatches};
ghost use Rattle.rma_stream.specs.Findings.{mismatches};
ghost use Rattle.rma_stream.specs.inside.Study.{IsOrdered, IsStudy};

use crate::matching::mismatches;
use crate::order::impossible_findings;
use rma_base::Memory;
use rma_call::RankCalls;
use rma_clock::{Clocks, SharedClocks};
use rma_happens_before::{HappensBefore, RunOrder, order_of};
use rma_match::Matches;
use rma_report::FindingList;
use std::alloc::Global;

/// How far these passes come.
#[derive(Drop)]
pub(crate) enum Study {
    /// One of them finds something. No later pass is asked.
    Failed { found: FindingList },
    /// The calls match, and the run is possible: the order of its points.
    Possible(HappensBefore),
}

impl Study {
    /// The study of a run of good logs with these matches.
    ///
    /// # Errors
    ///
    /// `Memory` where there is none left.
    pub(crate) fn of(alloc: Global, calls: &[RankCalls], matches: &Matches) -> Result<Study, Memory>
        requires good { AreGood calls.now }
        requires matches { AreMatches calls.now matches.now }
        ensures { IfOk result (IsStudy ⟦<SharedClocks as Clocks>⟧.are_of calls.now) }
    {
        let unmatched = mismatches(alloc, calls, matches)?;
        if unmatched.is_empty() {
            ordered_study(alloc, calls, matches)
        } else {
            Ok(Study::Failed { found: unmatched })
        }
    }
}

/// The study of one whose calls match.
fn ordered_study(alloc: Global, calls: &[RankCalls], matches: &Matches) -> Result<Study, Memory>
    requires good { AreGood calls.now }
    requires matches { AreMatches calls.now matches.now }
    ensures { IfOk result (IsOrdered ⟦<SharedClocks as Clocks>⟧.are_of calls.now) }
{
    match order_of(alloc, calls, matches)? {
        RunOrder::Impossible(found) => {
            let found = impossible_findings(alloc, found.as_slice())?;
            Ok(Study::Failed { found })
        }
        RunOrder::Possible(order) => Ok(Study::Possible(order)),
    }
}
