//! Two cuts of a run.
use rma_base::Sequence;

/// How many of its first points each rank has reached, by rank.
pub type Cut = Sequence<u32>;

/// Two states of a run, which show that neither of two accesses is before the other.
#[derive(Drop)]
pub struct Cuts {
    /// The second access has started, and the first is not complete or not visible.
    pub first: Cut,
    /// The first access has started, and the second is not complete or not visible.
    pub second: Cut,
}
