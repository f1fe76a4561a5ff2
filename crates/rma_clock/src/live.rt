//! Clocks of a run that is still read.
ghost use Rattle.std.specs.Prelude.{ℕ, ◌≡◌, List, replicate, sum, IfOk, OnOk, OnErr};
ghost use Rattle.rma_link.specs.declared.links.Links.{Links};
ghost use Rattle.rma_clock.specs.Reached.{CanSettle, IsLastPoint, with_point, with_edges, edges_to, no_links};
ghost use Rattle.rma_clock.specs.inside.Live.{AreLive};

use crate::clocks::Clocks;
use crate::row::Row;
use crate::table::Table;
use rma_base::{Memory, Point, Rank};
use std::alloc::Global;

/// The clocks of the points that are settled so far.
///
/// They stand for how many points of each rank are settled, and for the links that led to them: an edge from each source.
#[derive(Drop)]
pub struct LiveClocks {
    /// What is before the settled points.
    table: Table,
    /// By rank, how many points are settled.
    reached: Row,
    /// How many are settled.
    taken: u64,
}

impl LiveClocks {
    /// No point is settled, of so many ranks.
    ///
    /// # Errors
    ///
    /// `Memory` where there is none left.
    pub fn new(alloc: Global, ranks: u32) -> Result<LiveClocks, Memory>
        ensures { IfOk result (AreLive (replicate ranks 0) no_links) }
    {
        Ok(LiveClocks {
            table: Table::new(alloc, ranks as usize)?,
            reached: Row::new(alloc, ranks as usize)?,
            taken: 0,
        })
    }

    /// Settles the next point of a rank, with an edge from each of these settled points.
    ///
    /// # Errors
    ///
    /// `Memory` where there is none left: then the point is not settled, and the clocks tell what they told.
    pub fn settle(&mut self, point: Point, sources: &[Point]) -> Result<(), Memory>
        requires { (points : List ℕ) × (links : Links) × AreLive points links self.old × CanSettle points point sources.now }
        ensures ok { OnOk result ((points : List ℕ) (links : Links) → AreLive points links self.old → CanSettle points point sources.now → AreLive (with_point points point) (with_edges links (edges_to point sources.now)) self.new) }
        ensures err { OnErr result ((points : List ℕ) (links : Links) → AreLive points links self.old → AreLive points links self.new) }
    {
        self.table.receive(point, sources)?;
        self.reached.raise(point.rank.0, point.pos + 1);
        self.taken += 1;
        Ok(())
    }

    /// The last settled point of the rank.
    pub fn last(&self, rank: Rank) -> Option<Point>
        ensures { (points : List ℕ) (links : Links) → AreLive points links self.now → IsLastPoint points rank result }
    {
        match self.reached.last(rank.0) {
            Some(pos) => Some(Point { rank, pos }),
            None => None,
        }
    }

    /// How many points are settled.
    pub fn taken(&self) -> u64
        ensures { (points : List ℕ) (links : Links) → AreLive points links self.now → result ≡ sum points }
    {
        self.taken
    }
}

impl Clocks for LiveClocks {
    ghost are_of = { λ clocks points links. AreLive points links clocks };

    fn leq(&self, p: Point, q: Point) -> bool {
        self.table.leq(p, q)
    }
}
