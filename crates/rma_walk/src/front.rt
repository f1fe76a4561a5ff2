//! How far a walk has come.
ghost use Rattle.std.specs.Prelude.{◌≡◌, ◌*◌, ◌%◌, ◌^◌, ◌<◌, ◌++◌, [], ◌∷◌, true, length, slice_index, option_map, nat_lt, OnOk};
ghost use Rattle.rma_walk.specs.inside.Run.{IsRun, IsReady};
ghost use Rattle.rma_walk.specs.inside.Front.{HasAdvanced};

use crate::run::Run;
use rma_base::{Memory, Point, Rank, Sequence};

/// The points that a walk is past.
#[derive(Drop)]
pub(crate) struct Front {
    /// By rank, the position of the first point that is not passed.
    pub(crate) next: Vec<u32>,
    /// The points that are passed, in that order, where it is asked for.
    pub(crate) order: Option<Sequence<Point>>,
}

impl Front {
    /// Passes the next point of the rank and, where that is a return, the entry of the next call too: an entry waits for
    /// nothing else.
    #[inline]
    pub(crate) fn advance(&mut self, run: &Run<'_>, rank: u32) -> Result<(), Memory>
        requires run { IsRun run.now.lens.now run.now.links.now }
        requires size { length self.old.next.items ≡ length run.now.lens.now }
        requires next { slice_index self.old.next.items rank < 2 * slice_index run.now.lens.now rank }
        requires ready { IsReady run.now.links.now self.old.next.items rank }
        ensures { OnOk result (HasAdvanced run.now.lens.now run.now.links.now rank self.old self.new) }
    {
        let pos = self.next[rank as usize];
        push_point(&mut self.order, rank, pos)?;
        if !is_entry(run, rank, pos + 1) {
            self.next[rank as usize] = pos + 1;
            return Ok(());
        }
        push_point(&mut self.order, rank, pos + 1)?;
        self.next[rank as usize] = pos + 2;
        Ok(())
    }
}

/// Whether the rank enters one of its calls at the position.
#[inline]
fn is_entry(run: &Run<'_>, rank: u32, pos: u32) -> bool
    requires rank { rank < length run.now.lens.now }
    requires calls { slice_index run.now.lens.now rank < 2 ^ 31 }
    ensures { result ≡ true → (pos % 2 ≡ 0) × (pos < 2 * slice_index run.now.lens.now rank) }
{
    pos % 2 == 0 && pos < 2 * run.lens[rank as usize]
}

/// Appends the point of the rank at the position to the order, where there is one.
#[inline]
fn push_point(order: &mut Option<Sequence<Point>>, rank: u32, pos: u32) -> Result<(), Memory>
    ensures { OnOk result (order.new ≡ option_map (λ list. list ++ record { rank = record { 0 = rank }; pos = pos } ∷ []) order.old) }
{
    let rank = Rank(rank);
    match order {
        Some(list) => list.push(Point { rank, pos }),
        None => Ok(()),
    }
}

/// Whether the point is passed, by the next positions of the ranks.
#[inline]
pub(crate) fn is_passed(next: &[u32], point: Point) -> bool
    requires { point.rank.0 < length next.now }
    ensures { result ≡ nat_lt point.pos (slice_index next.now point.rank.0) }
{
    point.pos < next[point.rank.0 as usize]
}
