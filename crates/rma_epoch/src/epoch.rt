//! Epochs, and the accesses that stand in them.
use rma_base::{Rank, RankSet};
use rma_open::EpochKind;
use rma_window::WindowId;

/// An epoch of a rank.
#[derive(Debug, Drop)]
pub struct Epoch {
    /// Its kind.
    pub kind: EpochKind,
    /// The window.
    pub window: WindowId,
    /// Whom it reaches, or, where it is an exposure epoch, who may access the rank in it.
    pub targets: Targets,
    /// The number of the call that opens it, among the calls of the rank.
    pub opener: u32,
    /// The number of the sound call that closes it, where there is one.
    pub close: Option<u32>,
}

/// The ranks of an epoch.
#[derive(Debug, Drop)]
pub enum Targets {
    /// All that have a part of the window.
    All,
    /// One rank.
    One(Rank),
    /// Those of a group, which is shared and not copied.
    Group(RankSet),
}

/// An access to a target, and the epoch in which it stands.
#[derive(Clone, Copy, Debug, PartialEq, Eq)]
pub struct Placed {
    /// The number of the access, among the calls of the rank.
    pub call: u32,
    /// The index of the epoch, among those of the rank.
    pub epoch: u32,
}
