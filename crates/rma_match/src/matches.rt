//! Which calls of a run match.
ghost use Rattle.std.specs.Prelude.{IfOk};
ghost use Rattle.rma_run.specs.Run.{IsRun};
ghost use Rattle.rma_match.specs.Matches.{AreMatches};

use rma_base::Memory;
use rma_call::RankCalls;
use rma_exposure::Exposures;
use rma_message::RunMessages;
use rma_round::Rounds;
use std::alloc::Global;

/// Which calls of a run match.
#[derive(Drop)]
pub struct Matches {
    /// Its messages.
    pub messages: RunMessages,
    /// The rounds of its collectives.
    pub rounds: Rounds,
    /// Its posts and starts.
    pub exposures: Exposures,
}

impl Matches {
    /// Those of whole logs. The i-th log is that of rank i.
    ///
    /// # Errors
    ///
    /// `Memory` where there is none left.
    pub fn of_calls(alloc: Global, ranks: &[RankCalls]) -> Result<Matches, Memory>
        requires { IsRun ranks.now }
        ensures { IfOk result (AreMatches ranks.now) }
    {
        let messages = RunMessages::of_calls(alloc, ranks)?;
        let rounds = Rounds::of_calls(alloc, ranks)?;
        let exposures = Exposures::of_calls(alloc, ranks)?;
        Ok(Matches {
            messages,
            rounds,
            exposures,
        })
    }
}
