//! The epochs in which accesses lie, and the posts that open some of them (MPI 4.0, "One-Sided Communications").
use rma_base::{LineNo, Rank};
use rma_window::WindowId;

/// A rank, and a window of which it has a part.
#[derive(Clone, Copy, Debug, PartialEq, Eq, Hash)]
pub struct Owner {
    /// The rank.
    pub rank: Rank,
    /// The window.
    pub window: WindowId,
}

/// What opens an exposure.
#[derive(Clone, Copy, Debug, PartialEq, Eq)]
pub enum ExposureKind {
    /// A post.
    Posted,
    /// A fence.
    Fenced,
}

/// An exposure epoch: other ranks may access the part that a target has of a window.
#[derive(Clone, Copy, Debug, PartialEq, Eq)]
pub struct Exposure {
    /// The window.
    pub window: WindowId,
    /// The target.
    pub target: Rank,
    /// What opens it.
    pub kind: ExposureKind,
    /// The number of the call that opens it, among the calls of the target from 0.
    pub opener: u32,
    /// The number of the call that closes it, if one does.
    pub close: Option<u32>,
    /// The line of the call that opens it.
    pub opened: LineNo,
}

/// A lock epoch.
#[derive(Clone, Copy, Debug, PartialEq, Eq)]
pub struct LockSpan {
    /// The window.
    pub window: WindowId,
    /// The rank that locks.
    pub rank: Rank,
    /// The target that is locked; a lockall locks all that have a part of the window.
    pub target: Option<Rank>,
    /// The number of the call that opens it, among the calls of the rank from 0.
    pub opener: u32,
    /// The number of the call that closes it, if one does.
    pub close: Option<u32>,
    /// The line of the call that opens it.
    pub line: LineNo,
}

/// A post.
#[derive(Clone, Copy, Debug, PartialEq, Eq)]
pub struct Post {
    /// The window.
    pub window: WindowId,
    /// The rank that posts.
    pub rank: Rank,
    /// Its number among the calls of the rank, from 0.
    pub call: u32,
    /// Its line.
    pub line: LineNo,
}
