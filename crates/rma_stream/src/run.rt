//! A run that is audited, up to the matches of its calls.
ghost use Rattle.std.specs.Prelude.{◌≡◌, [], List, IfOk};
ghost use Rattle.rma_log.specs.declared.fault.BookEnd.{BookEnd};
ghost use Rattle.rma_accesses.specs.Run.{AreGood};
ghost use Rattle.rma_stream.specs.inside.Outcome.{AreOutcomes};
ghost use Rattle.rma_stream.specs.inside.Run.{IsMatched, IsRunOf};

use crate::outcome::Outcomes;
use rma_base::Memory;
use rma_call::RankCalls;
use rma_match::Matches;
use rma_report::FindingList;
use std::alloc::Global;

/// A run that is audited.
#[derive(Drop)]
pub(crate) enum Run {
    /// Some logs have a bad line: the first of each, by rank. No later pass is asked.
    Judged { bad: FindingList },
    /// No log has one.
    Matched(MatchedRun),
}

/// The run of logs without a bad line. Its calls are matched once, for all passes.
#[derive(Drop)]
pub(crate) struct MatchedRun {
    /// The calls of its ranks.
    pub(crate) calls: Vec<RankCalls>,
    /// Which of them match.
    pub(crate) matches: Matches,
}

impl Run {
    /// The run of logs with these outcomes.
    ///
    /// # Errors
    ///
    /// `Memory` where there is none left.
    pub(crate) fn of(alloc: Global, outcomes: Outcomes) -> Result<Run, Memory>
        requires { outcomes.bad ≡ [] → AreGood outcomes.calls.items }
        ensures matched { IfOk result IsMatched }
        ensures run { IfOk result (λ run. (ends : List BookEnd) → AreOutcomes ends outcomes → IsRunOf ends run) }
    {
        let Outcomes { bad, calls } = outcomes;
        if !bad.is_empty() {
            return Ok(Run::Judged { bad });
        }
        let matches = Matches::of_calls(alloc, &calls)?;
        Ok(Run::Matched(MatchedRun { calls, matches }))
    }
}
