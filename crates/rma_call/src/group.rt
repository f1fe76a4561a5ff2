//! The groups of calls.

/// A group of calls, as the lines of the log are grouped.
#[derive(Clone, Copy, Debug, PartialEq, Eq)]
pub enum Group {
    /// Communicators and barriers.
    Frame,
    /// Messages.
    Message,
    /// Creations of windows, what frees them, and what attaches memory to them or detaches it.
    Window,
    /// Calls that open, complete or close an epoch.
    Epoch,
    /// Collectives that move data.
    Moving,
    /// Puts, gets and accumulates.
    Rma,
    /// Local loads and stores.
    Local,
}
