//! Why a line is not read.
use rma_base::FormReason;
use thiserror::Error;

/// A bad line.
#[derive(Clone, Copy, Debug, PartialEq, Eq)]
pub struct ParseFault {
    pub reason: FormReason,
}

/// Why a line is not read.
#[derive(Clone, Copy, Debug, PartialEq, Eq, Error)]
pub enum ParseError {
    /// The line is bad.
    #[error("refused")]
    Fault(ParseFault),
    /// Memory ran out.
    #[error("memory")]
    Memory,
}
