//! Synchronisation of one-sided communication (MPI 4.0, "One-Sided Communications").
use crate::assertion::Assertions;
use rma_base::{Name, Rank, RankSet};

/// A call that opens, completes or closes an epoch on a window.
#[derive(Debug, Drop)]
pub enum EpochCall {
    /// A fence, of all members of the window.
    Fence {
        window: Name,
        assertions: Assertions,
    },
    /// An exposure epoch begins, for these origins.
    Post {
        window: Name,
        origins: RankSet,
        assertions: Assertions,
    },
    /// An access epoch begins, to these targets.
    Start {
        window: Name,
        targets: RankSet,
        assertions: Assertions,
    },
    /// The access epoch ends.
    Complete {
        window: Name,
    },
    /// The exposure epoch ends: a wait, or a test that answered true.
    Expwait {
        window: Name,
    },
    /// A lock of the part of a target.
    Lock {
        window: Name,
        target: Rank,
        kind: LockKind,
        assertions: Assertions,
    },
    /// The lock ends.
    Unlock {
        window: Name,
        target: Rank,
    },
    /// A shared lock of the parts of all members.
    LockAll {
        window: Name,
        assertions: Assertions,
    },
    /// The shared lock of all parts ends.
    UnlockAll {
        window: Name,
    },
    /// What was called for the target is complete there.
    Flush {
        window: Name,
        target: Rank,
    },
    /// What was called for any target is complete there.
    FlushAll {
        window: Name,
    },
    /// What was called for the target is complete at the caller.
    FlushLocal {
        window: Name,
        target: Rank,
    },
    /// What was called for any target is complete at the caller.
    FlushLocalAll {
        window: Name,
    },
    /// The public and the private copy of the caller's part are made one.
    Sync {
        window: Name,
    },
}

/// Whether a lock keeps others away.
#[derive(Clone, Copy, Debug, PartialEq, Eq)]
pub enum LockKind {
    /// No other lock of the part is held.
    Exclusive,
    /// Other shared locks may be held.
    Shared,
}
