//! The clocks of a whole run.
ghost use Rattle.std.specs.Prelude.{◌<◌, ◌^◌, ℕ, List, All, IfOk};
ghost use Rattle.rma_link.specs.declared.links.Links.{Links};
ghost use Rattle.rma_link.specs.Within.{AreWithin};
ghost use Rattle.rma_walk.specs.Outcome.{IsOrder};
ghost use Rattle.rma_clock.specs.Reached.{points_of};
ghost use Rattle.rma_clock.specs.inside.Table.{AreClocks};

use crate::builder::Builder;
use crate::clocks::Clocks;
use crate::table::Table;
use rma_base::{Memory, Point, Sequence};
use rma_link::Links;
use rma_walk::inboxes_of;
use std::alloc::Global;

/// The clocks of a possible run.
#[derive(Drop)]
pub struct SharedClocks {
    /// What is before its returns.
    table: Table,
}

impl SharedClocks {
    /// The clocks of a run whose ranks make so many calls, from an order of its points.
    ///
    /// A return that receives something takes time for each rank, and memory for the blocks of 16 ranks of which more is before it than
    /// before the last such return of its rank: at 1,024 ranks, at most 240 bytes where there are two. All returns of a meet take one row
    /// of numbers together.
    ///
    /// # Errors
    ///
    /// `Memory` where there is none left.
    pub fn build(
        alloc: Global,
        lens: &[u32],
        links: &Links,
        order: &Sequence<Point>,
    ) -> Result<SharedClocks, Memory>
        requires calls { All (λ calls. calls < 2 ^ 31) lens.now }
        requires links { AreWithin lens.now links.now }
        requires order { IsOrder lens.now links.now order.now }
        ensures { IfOk result (AreClocks (points_of lens.now) links.now) }
    {
        let inboxes = inboxes_of(alloc, lens, links)?;
        let mut builder = Builder::new(alloc, lens.len(), links)?;
        for point in order.as_slice() {
            if point.pos % 2 == 1 {
                let inbox = &inboxes[point.rank.0 as usize];
                let sources = inbox.sources(alloc, point.pos / 2)?;
                builder.settle(alloc, *point, sources.as_slice())?;
            }
        }
        Ok(SharedClocks {
            table: builder.table,
        })
    }
}

impl Clocks for SharedClocks {
    ghost are_of = { λ clocks points links. AreClocks points links clocks };

    fn leq(&self, p: Point, q: Point) -> bool {
        self.table.leq(p, q)
    }
}
