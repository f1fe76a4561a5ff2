//! The order of a run, from its calls and their matches.
ghost use Rattle.std.specs.Prelude.{◌≤◌, length, IfOk};
ghost use Rattle.rma_run.specs.Run.{IsRun};
ghost use Rattle.rma_match.specs.Matches.{AreMatches};
ghost use Rattle.rma_happens_before.specs.RunOrder.{IsRunOrder};

use crate::order::{HappensBefore, RunOrder};
use rma_base::Memory;
use rma_base::limits::RANKS;
use rma_call::RankCalls;
use rma_clock::{Clocks, SharedClocks};
use rma_match::Matches;
use rma_order::{call_counts, run_links, stuck_calls};
use rma_walk::{Walked, walk};
use std::alloc::Global;

/// The order of a run with these matches, or the calls that it cannot have made.
///
/// The time and the memory that it takes grow with the calls and their links; each return that receives something also takes
/// time for each rank.
///
/// # Errors
///
/// `Memory`, also where there are more ranks than a run may have.
pub fn order_of(alloc: Global, ranks: &[RankCalls], matches: &Matches) -> Result<RunOrder, Memory>
    requires run { IsRun ranks.now }
    requires matches { AreMatches ranks.now matches.now }
    ensures { IfOk result (IsRunOrder ⟦<SharedClocks as Clocks>⟧.are_of ranks.now) }
{
    if ranks.len() > RANKS {
        return Err(Memory);
    }
    let counts = call_counts(alloc, ranks)?;
    let links = run_links(alloc, ranks, matches)?;
    match walk(alloc, &counts, &links)? {
        Walked::Order(points) => {
            let clocks = SharedClocks::build(alloc, &counts, &links, &points)?;
            Ok(RunOrder::Possible(HappensBefore {
                links,
                points,
                clocks,
            }))
        }
        Walked::Stuck(firsts) => {
            let calls = stuck_calls(alloc, ranks, firsts.as_slice())?;
            Ok(RunOrder::Impossible(calls))
        }
    }
}
