//! What an audit finds.
use crate::strict::StrictFault;
use rma_base::{EpochReason, FormReason, LineNo, Rank, Sequence};
use rma_call::MatchFault;
use rma_finding::PairFinding;

/// One thing that is wrong with the logs of a run.
#[derive(Debug, Drop)]
pub enum Finding {
    /// The first bad line of the log of a rank.
    Malformed {
        /// The rank whose log has the line.
        rank: Rank,
        /// The line, or the one after the last where a line is missing.
        line: LineNo,
        /// What is wrong with it.
        reason: FormReason,
    },
    /// A call that the calls of other ranks do not match.
    Mismatch(MatchFault),
    /// The first call of a rank that is never left, since calls wait for one another in a circle, or a rank waits for
    /// itself alone.
    Impossible {
        /// The rank that makes the call.
        rank: Rank,
        /// The line of the call.
        line: LineNo,
    },
    /// The first call of a rank that stands in no epoch which allows it.
    Epoch {
        /// The rank that makes the call.
        rank: Rank,
        /// The line of the call, or that of the end of the log.
        line: LineNo,
        /// The rule that it breaks.
        reason: EpochReason,
    },
    /// Two accesses or two epochs that MPI does not allow at once.
    Pair(PairFinding),
    /// An assertion that does not hold, or memory of a dynamic window that is not attached where it has to be.
    Strict(StrictFault),
}

/// Findings in the order of the report.
pub type FindingList = Sequence<Finding>;

/// What an audit found in the logs of a run.
#[derive(Drop)]
pub struct Findings {
    /// The number of logs.
    pub ranks: u32,
    /// The number of lines of all logs.
    pub lines: u64,
    /// The findings of the first failing pass.
    pub list: FindingList,
}
