//! Communicators and barriers (MPI 4.0, "Groups, Contexts, Communicators, and Caching", "Collective Communication").
use rma_base::{Name, RankSet};

/// A communicator's declaration, or a barrier.
#[derive(Debug, Drop)]
pub enum FrameCall {
    /// The communicator is declared, with its members.
    Comm { comm: Name, ranks: RankSet },
    /// A barrier on the communicator.
    Barrier { comm: Name },
}
