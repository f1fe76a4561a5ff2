//! Collectives that move data (MPI 4.0, "Collective Communication"). The bytes are those that one sender gives to one receiver.
use rma_base::{Name, Rank};

/// A collective that moves data between the members of a communicator.
#[derive(Debug, Drop)]
pub enum MovingCall {
    /// From the root to all.
    Bcast { root: Rank, bytes: u64, comm: Name },
    /// From the root to all, to each its own.
    Scatter { root: Rank, bytes: u64, comm: Name },
    /// From all to the root.
    Gather { root: Rank, bytes: u64, comm: Name },
    /// From all to the root, reduced.
    Reduce { root: Rank, bytes: u64, comm: Name },
    /// From all to all, reduced.
    Allreduce { bytes: u64, comm: Name },
    /// From all to all, the same to each.
    Allgather { bytes: u64, comm: Name },
    /// From all to all, to each its own.
    Alltoall { bytes: u64, comm: Name },
}
