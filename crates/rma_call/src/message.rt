//! Messages (MPI 4.0, "Point-to-Point Communication"). The request of a nonblocking call stands beside what the call does.
use rma_base::{Name, Rank};

/// A part of a message between two ranks.
#[derive(Debug, Drop)]
pub enum MessageCall {
    /// A blocking send of any mode, to a rank of the run.
    Send { to: Rank, tag: u32, comm: Name },
    /// A blocking receive, with the source and the tag of the message that came.
    Recv { from: Rank, tag: u32, comm: Name },
    /// A nonblocking send.
    Isend { to: Rank, tag: u32, comm: Name },
    /// A nonblocking receive, of a message that is known when it is waited for.
    Irecv { comm: Name },
    /// The completion of a request, with what came where the request is a receive.
    Wait { received: Option<Received> },
}

/// Where a message that was received came from.
#[derive(Clone, Copy, Debug, PartialEq, Eq)]
pub struct Received {
    pub from: Rank,
    pub tag: u32,
}
