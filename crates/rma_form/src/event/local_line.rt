//! What the lines of local accesses state.
use crate::event::rma_line::Buffer;
use rma_call::LocalAccess;

/// An access of a rank to its own memory that is no call.
#[derive(Debug, Drop)]
pub struct LocalLine {
    /// What is done.
    pub access: LocalAccess,
    /// The memory.
    pub buffer: Buffer,
}
