//! Points of a run: the entry and the return of each call.
use crate::rank::Rank;

/// A moment of one rank: the position 2i is the entry of its call i, and 2i + 1 the return of that call.
#[derive(Clone, Copy, Debug, PartialEq, Eq, PartialOrd, Ord, Hash)]
pub struct Point {
    pub rank: Rank,
    pub pos: u32,
}
