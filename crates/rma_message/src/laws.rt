//! What the definitions of this crate come to.
ghost use Rattle.std.specs.Prelude.{◌≡◌, ◌↔◌, ℕ, true, List, All, Contains};
ghost use Rattle.std.specs.List.{list_all};
ghost use Rattle.rma_base.specs.declared.match_reason.MatchReason.{MatchReason};
ghost use Rattle.rma_base.specs.declared.point.Point.{Point};
ghost use Rattle.rma_call.specs.Call.{Call, RankCalls};
ghost use Rattle.rma_call.specs.declared.match_fault.MatchFault.{MatchFault};
ghost use Rattle.rma_link.specs.declared.edge.Edge.{Edge};
ghost use Rattle.rma_link.specs.Point.{return_of};
ghost use Rattle.rma_link.specs.Within.{IsEdgeWithin};
ghost use Rattle.rma_run.specs.Run.{AreInOrder, calls_of, lens_of, with_calls};
ghost use Rattle.rma_message.specs.declared.end.End.{End};
ghost use Rattle.rma_message.specs.declared.source.MessageSource.TheVariants.{From};
ghost use Rattle.rma_message.specs.RankMessages.{messages_by};
ghost use Rattle.rma_message.specs.Matching.{IsUnmatched, unmatched};
ghost use Rattle.rma_message.specs.Messages.{IsMessageEdge, Messages, edges_in, message_edges};
ghost use Rattle.rma_message.specs.Source.{is_complete, source_of};

/// The ends that have no match are those of whose key the others have none of the same number.
pub fn faults_match_by_number()
    ensures { (reason : MatchReason) (others own : List End) (fault : MatchFault) → Contains (unmatched reason others own) fault ↔ IsUnmatched reason others own fault }
{}

/// The edges are those of the k-th send and the k-th receive of one key.
pub fn edges_match_by_number()
    ensures { (m : Messages) (edge : Edge) → Contains (edges_in m) edge ↔ IsMessageEdge m edge }
{}

/// The edges of a run are between its calls.
pub fn message_edges_are_within()
    ensures { (ranks : List RankCalls) → AreInOrder ranks → All (IsEdgeWithin (lens_of ranks)) (message_edges ranks) }
{}

/// Where all calls of a run are taken, an edge leads from each source that is known.
pub fn sources_are_edges()
    ensures { (ranks : List RankCalls) → AreInOrder ranks → (own : RankCalls) (number : ℕ) (point : Point) → Contains ranks own
        → source_of (calls_of ranks) own.rank.0 number ≡ From point → Contains (message_edges ranks) (record { from = point; to = return_of own.rank number }) }
{}

/// And each edge of a message leads from its source, where the receives of the rank that gets it are complete.
pub fn edges_are_from_sources()
    ensures { (ranks : List RankCalls) → AreInOrder ranks → (own : RankCalls) (number : ℕ) (point : Point) → Contains ranks own → list_all is_complete (messages_by own).receives ≡ true
        → Contains (message_edges ranks) (record { from = point; to = return_of own.rank number }) → source_of (calls_of ranks) own.rank.0 number ≡ From point }
{}

/// A source that is known stays as more calls of any rank are taken.
pub fn sources_stay()
    ensures { (calls : ℕ → List Call) (other : ℕ) (more : List Call) (rank number : ℕ) (point : Point) → source_of calls rank number ≡ From point
        → source_of (with_calls calls other more) rank number ≡ From point }
{}
