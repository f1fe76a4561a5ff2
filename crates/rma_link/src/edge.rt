//! Edges between two points.
use rma_base::Point;

/// The entry of one call comes before the return of another.
#[derive(Clone, Copy, Debug, PartialEq, Eq)]
pub struct Edge {
    /// The entry.
    pub from: Point,
    /// The return.
    pub to: Point,
}
