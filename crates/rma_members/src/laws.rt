//! What the definitions of this crate come to.
ghost use Rattle.std.specs.Prelude.{◌↔◌, ◌≡◌, ◌<◌, ℕ, List, [], length, Contains};
ghost use Rattle.rma_base.specs.declared.rank.Rank.{Rank};
ghost use Rattle.rma_call.specs.Call.{RankCalls};
ghost use Rattle.rma_log.specs.Ends.{AreCallsOf};
ghost use Rattle.rma_log.specs.Logs.{Checked};
ghost use Rattle.rma_run.specs.Run.{AreInOrder};
ghost use Rattle.rma_sync.specs.Matching.{match_faults};
ghost use Rattle.rma_round.specs.declared.kind.Kind.{Kind};
ghost use Rattle.rma_round.specs.declared.kind.Kind.TheVariants.{Free};
ghost use Rattle.rma_members.specs.Matched.{HasPart, IsInRound, IsMatched, IsMember};

/// The calls of a round are by exactly the members: where one rank makes a call of it, those ranks that have to.
pub fn rounds_have_all_members()
    ensures { (kind : Kind) (ranks : List RankCalls) (name : List ℕ) (place some rank : ℕ) → IsMatched ranks → IsInRound kind ranks name place some → IsInRound kind ranks name place rank ↔ IsMember kind ranks name rank }
{}

/// The ranks that have a part of a window are exactly its members, which are those that have to free it.
pub fn windows_have_parts_of_members()
    ensures { (ranks : List RankCalls) (window : List ℕ) (rank : Rank) → IsMatched ranks → HasPart ranks window rank ↔ IsMember Free ranks window rank.0 }
{}

/// The ranks that have to make a call have logs.
pub fn members_have_logs()
    ensures { (kind : Kind) (ranks : List RankCalls) (name : List ℕ) (rank : ℕ) → IsMatched ranks → IsMember kind ranks name rank → rank < length ranks }
{}

/// Good logs, the i-th of rank i, match where no call is at fault for those of other ranks.
pub fn good_logs_match()
    ensures { (ranks : List RankCalls) → AreInOrder ranks → ((own : RankCalls) → Contains ranks own → (lines : List Checked) × AreCallsOf own.rank.0 (length ranks) lines own) → match_faults ranks ≡ [] → IsMatched ranks }
{}
