//! The next call of each rank, and what is at or before the entry of all of them.
ghost use Rattle.std.specs.Prelude.{◌≡◌, ◌<◌, ◌^◌, ◌↔◌, ℕ, List, Some, IsTrue};
ghost use Rattle.rma_link.specs.declared.links.Links.{Links};
ghost use Rattle.rma_link.specs.Order.{IsAtOrBefore};
ghost use Rattle.rma_link.specs.Point.{entry};
ghost use Rattle.rma_clock.specs.Reached.{IsReached};
ghost use Rattle.rma_history.specs.History.{AreEntered, IsNextOf};
ghost use Rattle.rma_history.specs.inside.Passed.{IsBeforeAll};

use rma_base::{Point, Rank};
use rma_clock::Clocks;

/// Whether a point is at or before the entry of the next call of each rank that has one.
pub(crate) fn is_before_all<C: Clocks>(p: Point, next: &[Option<u32>], clocks: &C) -> bool
    requires { (points : List ℕ) × (links : Links) × C.are_of clocks.now points links × IsReached points p × AreEntered points next.now }
    ensures { (points : List ℕ) (links : Links) → C.are_of clocks.now points links → IsReached points p → AreEntered points next.now → IsTrue result → IsBeforeAll links next.now p }
{
    let Ok(ranks) = u32::try_from(next.len()) else {
        return false;
    };
    'ranks: for number in 0..ranks {
        if !is_before_next(p, Rank(number), next, clocks) {
            return false;
        }
    }
    true
}

/// Whether a point is at or before the entry of the next call of a rank, if it has one.
fn is_before_next<C: Clocks>(p: Point, rank: Rank, next: &[Option<u32>], clocks: &C) -> bool
    requires { (points : List ℕ) × (links : Links) × C.are_of clocks.now points links × IsReached points p × AreEntered points next.now }
    ensures { (points : List ℕ) (links : Links) → C.are_of clocks.now points links → IsReached points p → AreEntered points next.now → IsTrue result ↔ ((call : ℕ) → IsNextOf next.now rank call → IsAtOrBefore links p (entry rank call)) }
{
    match next_call(next, rank) {
        Some(call) => clocks.leq(p, entry_of(rank, call)),
        None => true,
    }
}

/// The next call of a rank, if it has one.
pub(crate) fn next_call(next: &[Option<u32>], rank: Rank) -> Option<u32>
    ensures { (call : ℕ) → (result ≡ Some call) ↔ IsNextOf next.now rank call }
{
    match next.get(rank.0 as usize) {
        Some(call) => *call,
        None => None,
    }
}

/// Where a rank enters a call.
pub(crate) fn entry_of(rank: Rank, call: u32) -> Point
    requires { call < 2 ^ 31 }
    ensures { result ≡ entry rank call }
{
    Point {
        rank,
        pos: 2 * call,
    }
}
