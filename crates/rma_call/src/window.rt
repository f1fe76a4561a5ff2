//! Windows (MPI 4.0, "One-Sided Communications").
use rma_base::{AccOps, Name, WinModel};

/// A window that is created or freed, or memory of a dynamic one.
#[derive(Debug, Drop)]
pub enum WindowCall {
    /// The window is created on the communicator.
    Create {
        window: Name,
        comm: Name,
        /// The address of the rank's part.
        base: u64,
        /// The number of bytes of the rank's part.
        size: u64,
        /// The displacement unit in bytes.
        unit: u32,
        model: WinModel,
        ops: AccOps,
        /// Whether memory is attached to it later: its part is then the whole space of addresses.
        dynamic: bool,
    },
    /// The window is freed.
    Free {
        window: Name,
    },
    /// Memory from this address on is attached to the dynamic window: so many bytes.
    Attach {
        window: Name,
        address: u64,
        size: u64,
    },
    /// The memory that was attached from this address on is detached.
    Detach {
        window: Name,
        address: u64,
    },
}
