//! Accesses of a rank to its own memory that are no calls.
use rma_bytes::Layout;

/// An access of a rank to its own memory.
#[derive(Debug, Drop)]
pub struct LocalCall {
    /// What is done.
    pub access: LocalAccess,
    /// The memory.
    pub layout: Layout,
}

/// What a rank does to its own memory.
#[derive(Clone, Copy, Debug, PartialEq, Eq)]
pub enum LocalAccess {
    /// It reads.
    Load,
    /// It writes.
    Store,
    /// It reads until it sees a value that another rank writes.
    Poll,
}
