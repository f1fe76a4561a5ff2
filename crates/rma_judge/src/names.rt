//! What is known of the names that a log gives.

/// What became of a window.
#[derive(Clone, Copy, Debug, PartialEq, Eq)]
pub enum WindowState {
    /// It was created with its memory.
    Fixed,
    /// It was created, and memory is attached to it.
    Dynamic,
    /// It was freed.
    Freed,
}

/// A request that is not completed yet.
#[derive(Clone, Copy, Debug, PartialEq, Eq)]
pub struct Pending {
    /// Which of the requests of the log it is, from 1.
    pub ordinal: u32,
    /// Whether it is a receive.
    pub receives: bool,
}
