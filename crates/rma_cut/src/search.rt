//! The points at or before one or two others, rank by rank.
ghost use Rattle.std.specs.Prelude.{◌≡◌, ◌^◌, ◌<◌, ◌≤◌, ◌*◌, ℕ, List, All, IfOk, length, slice_index};
ghost use Rattle.rma_base.specs.declared.point.Point.{Point};
ghost use Rattle.rma_link.specs.declared.links.Links.{Links};
ghost use Rattle.rma_link.specs.Order.{IsAtOrBefore};
ghost use Rattle.rma_clock.specs.Reached.{IsReached, points_of};
ghost use Rattle.rma_cut.specs.inside.Asked.{HasAsked, IsBeforeAsked, IsBeforeOption, IsCount};

use crate::cuts::Cut;
use rma_base::limits::RANKS;
use rma_base::{Memory, Point, Rank, Sequence};
use rma_clock::Clocks;
use std::alloc::Global;

/// Up to two points of a run.
#[derive(Clone, Copy)]
pub(crate) struct Asked {
    /// One, if there is any.
    pub(crate) one: Option<Point>,
    /// Another, if there is a second.
    pub(crate) other: Option<Point>,
}

/// How many points of each rank are at or before one of these.
///
/// `Memory` where there is none left, also where there are more ranks than a run may have.
pub(crate) fn cut_before<C: Clocks>(
    alloc: Global,
    asked: &Asked,
    lens: &[u32],
    clocks: &C,
) -> Result<Cut, Memory>
    requires calls { All (λ calls. calls < 2 ^ 31) lens.now }
    requires clocks { (links : Links) × C.are_of clocks.now (points_of lens.now) links × ((p : Point) → HasAsked asked.now p → IsReached (points_of lens.now) p) }
    ensures size { IfOk result (λ cut. length cut ≡ length lens.now) }
    ensures counts { IfOk result (λ cut. (links : Links) → C.are_of clocks.now (points_of lens.now) links → ((p : Point) → HasAsked asked.now p → IsReached (points_of lens.now) p)
        → (rank : ℕ) → rank < length lens.now → IsCount (IsBeforeAsked links asked.now) rank (2 * slice_index lens.now rank) (slice_index cut rank)) }
{
    if lens.len() > RANKS {
        return Err(Memory);
    }
    let mut cut = Sequence::with_capacity(alloc, lens.len())?;
    'ranks: for rank in 0..lens.len() {
        let count = count_asked(Rank(rank as u32), 2 * lens[rank], asked, clocks);
        cut.push(count)?;
    }
    Ok(cut)
}

/// How many of so many first points of a rank are at or before one of these.
fn count_asked<C: Clocks>(rank: Rank, n: u32, asked: &Asked, clocks: &C) -> u32
    requires { (points : List ℕ) × (links : Links) × C.are_of clocks.now points links × (n ≤ slice_index points rank.0) × ((p : Point) → HasAsked asked.now p → IsReached points p) }
    ensures { (points : List ℕ) (links : Links) → C.are_of clocks.now points links → n ≤ slice_index points rank.0 → ((p : Point) → HasAsked asked.now p → IsReached points p)
        → IsCount (IsBeforeAsked links asked.now) rank.0 n result }
{
    let one = count_option(rank, n, asked.one, clocks);
    let other = count_option(rank, n, asked.other, clocks);
    one.max(other)
}

/// How many of so many first points of a rank are at or before this one, if it is given.
fn count_option<C: Clocks>(rank: Rank, n: u32, p: Option<Point>, clocks: &C) -> u32
    requires { (points : List ℕ) × (links : Links) × C.are_of clocks.now points links × (n ≤ slice_index points rank.0) × ((q : Point) → p ≡ Some q → IsReached points q) }
    ensures { (points : List ℕ) (links : Links) → C.are_of clocks.now points links → n ≤ slice_index points rank.0 → ((q : Point) → p ≡ Some q → IsReached points q)
        → IsCount (IsBeforeOption links p) rank.0 n result }
{
    match p {
        Some(p) => count_before(rank, n, p, clocks),
        None => 0,
    }
}

/// How many of so many first points of a rank are at or before this one, by a binary search.
fn count_before<C: Clocks>(rank: Rank, n: u32, p: Point, clocks: &C) -> u32
    requires { (points : List ℕ) × (links : Links) × C.are_of clocks.now points links × (n ≤ slice_index points rank.0) × IsReached points p }
    ensures { (points : List ℕ) (links : Links) → C.are_of clocks.now points links → n ≤ slice_index points rank.0 → IsReached points p
        → IsCount (λ q. IsAtOrBefore links q p) rank.0 n result }
{
    let mut low = 0;
    let mut high = n;
    'search: while low < high {
        let middle = low + (high - low) / 2;
        if clocks.leq(Point { rank, pos: middle }, p) {
            low = middle + 1;
        } else {
            high = middle;
        }
    }
    low
}
