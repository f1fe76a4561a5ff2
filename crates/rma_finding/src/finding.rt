//! What is found of pairs.
use rma_base::{LineNo, Name, Rank, Site};
use rma_bytes::Runs;
use rma_rules::{AccessName, Rule};

/// Two accesses, or two epochs, that MPI does not allow at once.
#[derive(Debug, Drop)]
pub enum PairFinding {
    /// Two accesses race.
    Race(FoundRace),
    /// A target is locked while it is exposed.
    Exposed(ExposedLock),
    /// A target is exposed twice at once.
    Doubled(DoubledPost),
}

/// Two accesses of the memory of one rank that conflict, while nothing orders them or keeps them apart.
#[derive(Debug, Drop)]
pub struct FoundRace {
    /// The access whose name comes first.
    pub first: AccessName,
    /// The site of its call, if the log has one.
    pub first_site: Option<Site>,
    /// The other access.
    pub second: AccessName,
    /// The site of its call, if the log has one.
    pub second_site: Option<Site>,
    /// The rank whose memory both touch.
    pub memory: Rank,
    /// The rule by which they conflict.
    pub rule: Rule,
    /// All bytes that both touch.
    pub bytes: Runs,
}

/// A lock epoch at a target that may be open while an exposure epoch is, on the same window.
#[derive(Debug, Drop)]
pub struct ExposedLock {
    /// The window.
    pub window: Name,
    /// The rank that locks.
    pub rank: Rank,
    /// The line of its lock.
    pub lock: LineNo,
    /// The target.
    pub target: Rank,
    /// The line of the target's call that opens the exposure.
    pub opened: LineNo,
}

/// A post between two fences that expose the same window of the same target.
#[derive(Debug, Drop)]
pub struct DoubledPost {
    /// The window.
    pub window: Name,
    /// The target.
    pub target: Rank,
    /// The line of its post.
    pub post: LineNo,
    /// The line of the fence that opens the exposure.
    pub opened: LineNo,
}
