//! Want of memory, the one answer that no clause ties to a cause.
use std::alloc::{AllocError, AllocFailed};

/// Memory ran out. The call that answers it leaves what it was called on as it was, unless it says otherwise.
#[derive(Clone, Copy, Debug, PartialEq, Eq)]
pub struct Memory;

impl From<AllocError> for Memory {
    fn from(_error: AllocError) -> Memory {
        Memory
    }
}

impl<T: Drop> From<AllocFailed<T>> for Memory {
    fn from(_failed: AllocFailed<T>) -> Memory {
        Memory
    }
}
