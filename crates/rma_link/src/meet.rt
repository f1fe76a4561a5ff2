//! Calls that wait for one another.
ghost use Rattle.std.specs.Prelude.{◌≡◌, ◌<◌, ◌^◌};
ghost use Rattle.rma_link.specs.Point.{entry};

use rma_base::{Point, Rank, Sequence};

/// A call that takes part in a meet.
#[derive(Clone, Copy, Debug, PartialEq, Eq)]
pub struct Member {
    /// The rank that makes it.
    pub rank: Rank,
    /// Its number among the calls of the rank, from 0.
    pub call: u32,
}

impl Member {
    /// Where the rank enters the call.
    pub fn entry(&self) -> Point
        requires { self.now.call < 2 ^ 31 }
        ensures { result ≡ entry self.now.rank self.now.call }
    {
        Point {
            rank: self.rank,
            pos: 2 * self.call,
        }
    }
}

/// Calls of which each returns only after all others are entered, as those of a round of a barrier.
#[derive(Debug, Drop)]
pub struct Meet {
    /// One call of each rank that takes part, by rank.
    pub calls: Sequence<Member>,
}
