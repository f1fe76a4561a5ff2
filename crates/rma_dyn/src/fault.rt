//! What is found of the memory of dynamic windows.
use crate::reason::RegionReason;
use rma_base::{LineNo, Rank};

/// A fault of the memory of a dynamic window.
#[derive(Clone, Copy, Debug, PartialEq, Eq)]
pub struct RegionFault {
    /// Its reason.
    pub reason: RegionReason,
    /// The rank that makes the call.
    pub rank: Rank,
    /// The line of the call.
    pub line: LineNo,
    /// The rank and the line of the other call, if there is one.
    pub other: Option<(Rank, LineNo)>,
}
