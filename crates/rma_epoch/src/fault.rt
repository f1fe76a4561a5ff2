//! What is wrong with the epochs of a rank.
use rma_base::{EpochReason, LineNo};

/// The first call of a rank that stands in no epoch that allows it, or the end of its log where an epoch is left open.
#[derive(Clone, Copy, Debug, PartialEq, Eq)]
pub struct EpochFault {
    /// The line of the call, or the one that ends the log.
    pub line: LineNo,
    /// Why it is at fault.
    pub reason: EpochReason,
}
