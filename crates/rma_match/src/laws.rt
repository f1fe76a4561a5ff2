//! What the definitions of this crate come to.
ghost use Rattle.std.specs.Prelude.{◌≡◌, ℕ, List, Some, true, false, slice_get, Contains};
ghost use Rattle.rma_base.specs.declared.point.Point.{Point};
ghost use Rattle.rma_call.specs.Call.{Call, RankCalls};
ghost use Rattle.rma_link.specs.Link.{IsMet};
ghost use Rattle.rma_link.specs.Point.{return_of};
ghost use Rattle.rma_run.specs.Run.{AreInOrder, calls_of};
ghost use Rattle.rma_round.specs.Edge.{Rooted, rooted_of, round_edges};
ghost use Rattle.rma_round.specs.Meet.{waits_for_all, round_meets};
ghost use Rattle.rma_exposure.specs.Edge.{exposure_edges};
ghost use Rattle.rma_match.specs.Source.{round_entries, expwait_entries};

/// Where all calls of a run are taken, the completes that an expwait waits for and that are there are those from which an edge
/// leads to its return.
pub fn completes_are_edges()
    ensures only { (ranks : List RankCalls) → AreInOrder ranks → (own : RankCalls) (number : ℕ) (point : Point) → Contains ranks own
        → Contains (expwait_entries (calls_of ranks) own.rank.0 number) (Some point) → Contains (exposure_edges ranks) (record { from = point; to = return_of own.rank number }) }
    ensures all { (ranks : List RankCalls) → AreInOrder ranks → (own : RankCalls) (number : ℕ) (point : Point) → Contains ranks own
        → Contains (exposure_edges ranks) (record { from = point; to = return_of own.rank number }) → Contains (expwait_entries (calls_of ranks) own.rank.0 number) (Some point) }
{}

/// Where all calls of a run are taken, the calls that are there of those that a call waits for which waits for all of its round
/// are in one meet with it.
pub fn members_meet()
    ensures { (ranks : List RankCalls) → AreInOrder ranks → (own : RankCalls) (number : ℕ) (call : Call) (point : Point) → Contains ranks own
        → slice_get own.calls number ≡ Some call → waits_for_all call.what ≡ true → (count : ℕ) → Contains (round_entries count (calls_of ranks) own.rank.0 number call.what) (Some point)
        → IsMet (record { edges = round_edges ranks; meets = round_meets ranks }) point (return_of own.rank number) }
{}

/// Where all calls of a run are taken, an edge leads from the call of the root that a call waits for, if that is there, where data
/// comes from the root.
pub fn roots_are_edges()
    ensures { (ranks : List RankCalls) → AreInOrder ranks → (own : RankCalls) (number : ℕ) (call : Call) (at : Rooted) (point : Point) → Contains ranks own
        → slice_get own.calls number ≡ Some call → rooted_of call.what ≡ Some at → at.to_root ≡ false → (count : ℕ)
        → Contains (round_entries count (calls_of ranks) own.rank.0 number call.what) (Some point) → Contains (round_edges ranks) (record { from = point; to = return_of own.rank number }) }
{}
