//! The spans of what calls do, as they are kept.
use rma_base::Point;

/// The span of memory of the rank itself.
#[derive(Clone, Copy, Debug)]
pub(crate) struct OwnSpan {
    /// Where its use is done, if it ever is.
    pub done: Option<Point>,
    /// The number of the list of lock epochs in which it lies.
    pub locks: u32,
}

/// The span of an access at its target.
#[derive(Clone, Copy, Debug)]
pub(crate) struct TargetSpan {
    /// Where its epoch opens there.
    pub opening: Option<Point>,
    /// Where it is done there, if it ever is.
    pub done: Option<Point>,
    /// The number of the list of the lock epoch in which it lies.
    pub locks: u32,
}

/// The spans of what a call does.
#[derive(Clone, Copy, Debug)]
pub(crate) struct CallSpans {
    /// The number of the call.
    pub call: u32,
    /// The span of the memory of its own rank.
    pub own: OwnSpan,
    /// The span at its target, where it has one.
    pub target: Option<TargetSpan>,
}
