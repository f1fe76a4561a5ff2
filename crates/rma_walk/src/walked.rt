//! What a walk comes to.
use rma_base::{Point, Sequence};

/// What a walk over the points of a run comes to.
#[derive(Debug, Drop)]
pub enum Walked {
    /// All points, each after those that are ordered before it: the run is possible.
    Order(Sequence<Point>),
    /// By rank, the first call that has a point at or after two points which are each before the other.
    Stuck(Sequence<Option<u32>>),
}
