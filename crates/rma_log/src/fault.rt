//! The outcome of a whole log.
use rma_base::{FormReason, LineNo};
use rma_call::RankCalls;

/// The first bad line of a log, and why it is bad.
#[derive(Clone, Copy, Debug, PartialEq, Eq)]
pub struct FormFault {
    /// The number of the line.
    pub line: LineNo,
    /// The first reason that holds of it.
    pub reason: FormReason,
}

/// The outcome of a whole log.
#[derive(Debug, Drop)]
pub enum BookEnd {
    /// Each line is good, and these are the calls.
    Calls(RankCalls),
    /// The first bad line.
    Fault(FormFault),
}
