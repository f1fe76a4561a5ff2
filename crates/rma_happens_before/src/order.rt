//! The order of a run.
use rma_base::{Point, Sequence};
use rma_clock::SharedClocks;
use rma_link::Links;
use rma_order::ImpossibleCall;

/// The order of the points of a possible run.
#[derive(Drop)]
pub struct HappensBefore {
    /// Which entries come before which returns of other ranks.
    pub links: Links,
    /// All points, each after those that are ordered before it.
    pub points: Sequence<Point>,
    /// What tells whether one point is at or before another.
    pub clocks: SharedClocks,
}

/// The order of a run, if it has one.
#[derive(Drop)]
pub enum RunOrder {
    /// The run is possible, and this is its order.
    Possible(HappensBefore),
    /// No execution of the program can have made its calls: by rank, the first one that is never left. There is at least one.
    Impossible(Sequence<ImpossibleCall>),
}
