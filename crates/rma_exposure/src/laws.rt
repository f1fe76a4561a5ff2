//! What the definitions of this crate come to.
ghost use Rattle.std.specs.Prelude.{◌≡◌, ℕ, List, Some, All, Contains};
ghost use Rattle.rma_call.specs.Call.{Call, RankCalls};
ghost use Rattle.rma_link.specs.declared.edge.Edge.{Edge};
ghost use Rattle.rma_link.specs.Within.{IsEdgeWithin};
ghost use Rattle.rma_run.specs.Run.{lens_of};
ghost use Rattle.rma_exposure.specs.declared.side.Side.{Side};
ghost use Rattle.rma_exposure.specs.Closing.{closing_of, opener_of, IsClosedBy};
ghost use Rattle.rma_exposure.specs.Edge.{exposure_edges, IsExposureEdge};

/// The edges of a run are those of the definition, and no others.
pub fn edges_are_of_matches()
    ensures only { (ranks : List RankCalls) (edge : Edge) → Contains (exposure_edges ranks) edge → IsExposureEdge ranks edge }
    ensures all { (ranks : List RankCalls) (edge : Edge) → IsExposureEdge ranks edge → Contains (exposure_edges ranks) edge }
{}

/// The call that closes an epoch is the one of the definition.
pub fn epochs_are_closed_once()
    ensures is { (side : Side) (calls : List Call) (opener closing : ℕ) → closing_of side calls opener ≡ Some closing → IsClosedBy side calls opener closing }
    ensures has { (side : Side) (calls : List Call) (opener closing : ℕ) → IsClosedBy side calls opener closing → closing_of side calls opener ≡ Some closing }
{}

/// The call that opens the epoch which a call closes is the one of the definition.
pub fn epochs_have_one_opener()
    ensures is { (side : Side) (calls : List Call) (opener closing : ℕ) → opener_of side calls closing ≡ Some opener → IsClosedBy side calls opener closing }
    ensures has { (side : Side) (calls : List Call) (opener closing : ℕ) → IsClosedBy side calls opener closing → opener_of side calls closing ≡ Some opener }
{}

/// The edges of a run are between its calls.
pub fn exposure_edges_are_within()
    ensures { (ranks : List RankCalls) → All (IsEdgeWithin (lens_of ranks)) (exposure_edges ranks) }
{}
