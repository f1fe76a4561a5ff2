//! What the definitions of this crate come to.
ghost use Rattle.std.specs.Prelude.{◌↔◌, List, All, Contains};
ghost use Rattle.rma_call.specs.Call.{RankCalls};
ghost use Rattle.rma_link.specs.declared.edge.Edge.{Edge};
ghost use Rattle.rma_link.specs.declared.meet.Meet.{Meet};
ghost use Rattle.rma_link.specs.Within.{IsEdgeWithin, IsMeetWithin};
ghost use Rattle.rma_run.specs.Run.{AreInOrder, lens_of};
ghost use Rattle.rma_round.specs.Edge.{IsRoundEdge, round_edges};
ghost use Rattle.rma_round.specs.Meet.{IsRoundMeet, round_meets};

/// The edges of a run are those of the definition, and no others.
pub fn edges_are_of_rounds()
    ensures { (ranks : List RankCalls) (edge : Edge) → Contains (round_edges ranks) edge ↔ IsRoundEdge ranks edge }
{}

/// The meets of a run are those of the definition, and no others.
pub fn meets_are_of_rounds()
    ensures { (ranks : List RankCalls) (meet : Meet) → Contains (round_meets ranks) meet ↔ IsRoundMeet ranks meet }
{}

/// The links of a run are between its calls.
pub fn round_links_are_within()
    ensures edges { (ranks : List RankCalls) → AreInOrder ranks → All (IsEdgeWithin (lens_of ranks)) (round_edges ranks) }
    ensures meets { (ranks : List RankCalls) → AreInOrder ranks → All (IsMeetWithin (lens_of ranks)) (round_meets ranks) }
{}
