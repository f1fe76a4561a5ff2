//! A walk over all points.
ghost use Rattle.std.specs.Prelude.{◌≡◌, ◌≢◌, ◌<◌, ◌*◌, ◌^◌, ℕ, Some, true, false, length, slice_index, slice_get, All, IfOk, MatchOption};
ghost use Rattle.rma_link.specs.Order.{IsPossible};
ghost use Rattle.rma_link.specs.Within.{AreWithin};
ghost use Rattle.rma_walk.specs.Outcome.{IsOutcome, IsStuck};
ghost use Rattle.rma_walk.specs.inside.Stop.{AreStops, IsWhole, stopped_at};

use crate::run::Run;
use crate::search::Search;
use crate::walked::Walked;
use rma_base::{Memory, Sequence};
use rma_link::Links;
use std::alloc::Global;

/// The order of the points of a run whose ranks make so many calls, or the calls that it never leaves.
///
/// The time and the memory that it takes grow with the points, the edges and the members of meets.
///
/// # Errors
///
/// `Memory` where there is none left.
pub fn walk(alloc: Global, lens: &[u32], links: &Links) -> Result<Walked, Memory>
    requires ranks { length lens.now < 2 ^ 32 }
    requires calls { All (λ calls. calls < 2 ^ 31) lens.now }
    requires links { AreWithin lens.now links.now }
    ensures { IfOk result (λ walked. IsOutcome lens.now links.now walked) }
{
    let run = Run { lens, links };
    let mut search = Search::new(alloc, &run, Some(Sequence::new(alloc)))?;
    search.settle_all(&run)?;
    let front = search.front;
    match stops(alloc, lens, &front.next)? {
        Some(firsts) => Ok(Walked::Stuck(firsts)),
        None => Ok(Walked::Order(front.order.unwrap())),
    }
}

/// By rank, the first call that is never left, where the run is not possible.
///
/// The time that it takes grows with the points, the edges and the members of meets. The memory grows with the calls and the
/// links, and not with the points, since no order is kept.
///
/// # Errors
///
/// `Memory` where there is none left.
pub fn first_impossible_calls(
    alloc: Global,
    lens: &[u32],
    links: &Links,
) -> Result<Option<Sequence<Option<u32>>>, Memory>
    requires ranks { length lens.now < 2 ^ 32 }
    requires calls { All (λ calls. calls < 2 ^ 31) lens.now }
    requires links { AreWithin lens.now links.now }
    ensures { IfOk result (λ firsts. MatchOption firsts (IsPossible links.now) (IsStuck lens.now links.now)) }
{
    let run = Run { lens, links };
    let mut search = Search::new(alloc, &run, None)?;
    search.settle_all(&run)?;
    stops(alloc, lens, &search.front.next)
}

/// By rank, the call that it does not leave, if some rank is not past its last call.
fn stops(alloc: Global, lens: &[u32], next: &[u32]) -> Result<Option<Sequence<Option<u32>>>, Memory>
    requires size { length next.now ≡ length lens.now }
    requires calls { All (λ calls. calls < 2 ^ 31) lens.now }
    ensures { IfOk result (λ stops. MatchOption stops (IsWhole lens.now next.now) (AreStops lens.now next.now)) }
{
    if is_whole(lens, next) {
        return Ok(None);
    }
    Ok(Some(first_stops(alloc, lens, next)?))
}

/// Whether each rank is past its last call, by its next position.
fn is_whole(lens: &[u32], next: &[u32]) -> bool
    requires size { length next.now ≡ length lens.now }
    requires calls { All (λ calls. calls < 2 ^ 31) lens.now }
    ensures yes { result ≡ true → IsWhole lens.now next.now }
    ensures no { result ≡ false → (rank : ℕ) × (rank < length lens.now) × (slice_index next.now rank ≢ 2 * slice_index lens.now rank) }
{
    for (rank, len) in lens.iter().enumerate() {
        if next[rank] != 2 * *len {
            return false;
        }
    }
    true
}

/// By rank, the call that it does not leave, if there is one.
fn first_stops(alloc: Global, lens: &[u32], next: &[u32]) -> Result<Sequence<Option<u32>>, Memory>
    requires size { length next.now ≡ length lens.now }
    requires calls { All (λ calls. calls < 2 ^ 31) lens.now }
    ensures each { IfOk result (λ stops. length stops ≡ length lens.now) }
    ensures stops { IfOk result (λ stops. (rank : ℕ) → rank < length lens.now → slice_get stops rank ≡ Some (stopped_at (slice_index lens.now rank) (slice_index next.now rank))) }
{
    let mut stops = Sequence::new(alloc);
    for (rank, len) in lens.iter().enumerate() {
        stops.push(stopped_at(*len, next[rank]))?;
    }
    Ok(stops)
}

/// The call at this position, where it is one of so many.
fn stopped_at(len: u32, next: u32) -> Option<u32>
    requires { len < 2 ^ 31 }
    ensures { result ≡ stopped_at len next }
{
    if next < 2 * len { Some(next / 2) } else { None }
}
