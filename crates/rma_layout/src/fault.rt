//! Why a buffer has no layout.
use thiserror::Error;

/// Why a buffer is refused.
#[derive(Clone, Copy, Debug, PartialEq, Eq)]
pub enum LayoutFault {
    /// More elements are touched than a call may touch.
    TooManyElements,
    /// The touched elements form more blocks than a call may have.
    TooManyBlocks,
    /// A byte lies outside the space of addresses.
    OutOfSpace,
}

/// Why there is no layout.
#[derive(Clone, Copy, Debug, PartialEq, Eq, Error)]
pub enum LayoutError {
    /// The buffer is refused.
    #[error("refused")]
    Fault(LayoutFault),
    /// Memory ran out.
    #[error("memory")]
    Memory,
}
