//! Calls that the calls of other ranks do not match.
use rma_base::{LineNo, MatchReason, Rank};

/// A call that has no match, or a match that differs from it.
#[derive(Clone, Copy, Debug, PartialEq, Eq)]
pub struct MatchFault {
    /// What is wrong with it.
    pub reason: MatchReason,
    /// The rank that makes the call.
    pub rank: Rank,
    /// The line of the call in the log of its rank.
    pub line: LineNo,
    /// The call that it differs from, where there is one: its rank, and its line in the log of that rank.
    pub other: Option<(Rank, LineNo)>,
}
