//! Ranks that go in step.
ghost use Rattle.std.specs.Prelude.{◌≡◌, List, true, All, IfOk};
ghost use Rattle.rma_call.specs.Call.{RankCalls};
ghost use Rattle.rma_run.specs.Run.{calls_of};
ghost use Rattle.rma_round.specs.Step.{GoInStep};
ghost use Rattle.rma_round.specs.inside.Rounds.{Represents};
ghost use Rattle.rma_walk.specs.Step.{IsEdgeOn};

use rma_base::Memory;
use rma_link::Edge;
use rma_round::Rounds;

/// Whether the positions of points alone order a run of these edges and rounds: each edge leads to a higher position, and the calls
/// of each round have one number. So it is where all ranks make as many calls between two that they make together, as most
/// programs do. No meet is made for it.
pub(crate) fn are_in_step(edges: &[Edge], rounds: &Rounds) -> Result<bool, Memory>
    ensures edges { IfOk result (λ yes. yes ≡ true → All IsEdgeOn edges.now) }
    ensures rounds { IfOk result (λ yes. yes ≡ true → (ranks : List RankCalls) → Represents (calls_of ranks) rounds.now → GoInStep (calls_of ranks)) }
{
    if lead_on(edges) {
        rounds.are_in_step()
    } else {
        Ok(false)
    }
}

/// Whether each edge leads to a higher position.
fn lead_on(edges: &[Edge]) -> bool
    ensures { result ≡ true → All IsEdgeOn edges.now }
{
    for edge in edges {
        if edge.from.pos >= edge.to.pos {
            return false;
        }
    }
    true
}
