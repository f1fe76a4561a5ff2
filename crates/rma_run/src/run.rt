//! Which logs are those of a run.
ghost use Rattle.std.specs.Prelude.{IsTrue, ◌↔◌};
ghost use Rattle.rma_run.specs.Run.{IsRun};

use rma_base::limits::FED;
use rma_call::RankCalls;

/// Whether the i-th log is that of rank i, and none has more calls than there may be.
pub fn is_run(ranks: &[RankCalls]) -> bool
    ensures { IsTrue result ↔ IsRun ranks.now }
{
    for (index, own) in ranks.iter().enumerate() {
        if own.rank().0 as usize != index || own.calls().len() as u64 > FED {
            return false;
        }
    }
    true
}
