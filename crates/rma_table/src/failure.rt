//! Why a table has no answer.
use rma_base::Memory;
use std::alloc::{AllocError, AllocFailed};
use std::io;

/// Why a table has no answer.
#[derive(Clone, Copy, Debug, PartialEq, Eq)]
pub enum Failure {
    /// The words are not a subject and files.
    Usage,
    /// The file cannot be read.
    Unread,
    /// A line of a row is none that a row may have.
    Row,
    /// The answer could not be written.
    Unwritten,
    /// There is no memory left.
    Memory,
}

impl Failure {
    /// What it is called.
    pub fn word(self) -> &'static str {
        match self {
            Failure::Usage => "the words are not a subject and files",
            Failure::Unread => "the table cannot be read",
            Failure::Row => "a line of the table is none that a row may have",
            Failure::Unwritten => "the answer cannot be written",
            Failure::Memory => "out of memory",
        }
    }
}

impl From<Memory> for Failure {
    fn from(_: Memory) -> Failure {
        Failure::Memory
    }
}

impl From<AllocError> for Failure {
    fn from(_: AllocError) -> Failure {
        Failure::Memory
    }
}

impl<T: Drop> From<AllocFailed<T>> for Failure {
    fn from(_: AllocFailed<T>) -> Failure {
        Failure::Memory
    }
}

impl From<io::Error> for Failure {
    fn from(_: io::Error) -> Failure {
        Failure::Unwritten
    }
}
