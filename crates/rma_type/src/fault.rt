//! Why a table makes no datatype.
use thiserror::Error;

/// Why a table refuses.
#[derive(Clone, Copy, Debug, PartialEq, Eq)]
pub enum TypeFault {
    /// No datatype of that name is live.
    UnknownType,
    /// The name is live already.
    NameInUse,
    /// A count or a block length is negative.
    NegativeCount,
    /// A part of an array that does not lie in it, or an array without an element.
    BadSubarray,
    /// More elements than a datatype may have.
    TooManyElements,
    /// A byte, a marker or an array extends out of the space of addresses.
    OutOfSpace,
}

/// Why no datatype was made.
#[derive(Clone, Copy, Debug, PartialEq, Eq, Error)]
pub enum TypeError {
    /// The table refuses.
    #[error("refused")]
    Fault(TypeFault),
    /// Memory ran out.
    #[error("memory")]
    Memory,
}
