//! Attaches and detaches.
use rma_base::{LineNo, Rank};
use rma_window::WindowId;

/// A call that attaches memory to a dynamic window, or detaches some from it.
#[derive(Clone, Copy, Debug, PartialEq, Eq)]
pub struct Change {
    /// The rank that makes the call, and whose memory it is.
    pub rank: Rank,
    /// The window.
    pub window: WindowId,
    /// The address of the first byte.
    pub address: u64,
    /// The number of the call, among the calls of the rank from 0.
    pub call: u32,
    /// Its line.
    pub line: LineNo,
    /// How many bytes are attached; none where they are detached.
    pub size: Option<u64>,
}
