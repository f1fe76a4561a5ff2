//! Whether a cut of a run is closed.
ghost use Rattle.std.specs.Prelude.{◌≡◌, ◌<◌, ◌≤◌, ◌*◌, ◌↔◌, ℕ, IsTrue, All, Contains, length, slice_index};
ghost use Rattle.rma_link.specs.declared.meet.Member.{Member};
ghost use Rattle.rma_link.specs.Point.{entry, return_of};
ghost use Rattle.rma_clock.specs.Reached.{IsReached};
ghost use Rattle.rma_cut.specs.Cut.{IsClosed, IsCut};
ghost use Rattle.rma_cut.specs.inside.Kept.{HasEntry, IsEdgeKept, IsMeetKept};

use rma_base::{Point, Rank};
use rma_link::{Edge, Links, Meet, Member};

/// Whether there is a number for each rank, at most that of its points.
pub(crate) fn is_cut(cut: &[u32], lens: &[u32]) -> bool
    ensures { IsTrue result ↔ IsCut lens.now cut.now }
{
    cut.len() == lens.len() && is_within(cut, lens)
}

/// Whether no rank has reached more points than it has.
fn is_within(cut: &[u32], lens: &[u32]) -> bool
    requires { length cut.now ≡ length lens.now }
    ensures { IsTrue result ↔ ((rank : ℕ) → rank < length lens.now → slice_index cut.now rank ≤ 2 * slice_index lens.now rank) }
{
    'ranks: for rank in 0..cut.len() {
        if u64::from(cut[rank]) > 2 * u64::from(lens[rank]) {
            return false;
        }
    }
    true
}

/// Whether a cut has each point that is at or before one of its points. It is asked of each link alone: a cut has the first points of each
/// rank.
pub(crate) fn is_closed(cut: &[u32], links: &Links) -> bool
    ensures { IsTrue result ↔ IsClosed links.now cut.now }
{
    keeps_edges(cut, links.edges.as_slice()) && keeps_meets(cut, links.meets.as_slice())
}

/// Whether each edge that leads to a point of a cut comes from one.
fn keeps_edges(cut: &[u32], edges: &[Edge]) -> bool
    ensures { IsTrue result ↔ All (IsEdgeKept cut.now) edges.now }
{
    for edge in edges {
        if has_point(cut, edge.to) && !has_point(cut, edge.from) {
            return false;
        }
    }
    true
}

/// Whether all calls of each meet are entered in a cut where some other one of it has returned.
fn keeps_meets(cut: &[u32], meets: &[Meet]) -> bool
    ensures { IsTrue result ↔ All (IsMeetKept cut.now) meets.now }
{
    for meet in meets {
        if !keeps_meet(cut, meet.calls.as_slice()) {
            return false;
        }
    }
    true
}

/// The same of one meet. A call that has returned is itself entered, so all calls are asked for.
fn keeps_meet(cut: &[u32], calls: &[Member]) -> bool
    ensures { IsTrue result ↔ ((m : Member) → Contains calls.now m → IsReached cut.now (return_of m.rank m.call) → All (HasEntry cut.now) calls.now) }
{
    !has_some_return(cut, calls) || has_entries(cut, calls)
}

/// Whether some of these calls has returned.
fn has_some_return(cut: &[u32], calls: &[Member]) -> bool
    ensures { IsTrue result ↔ ((m : Member) × Contains calls.now m × IsReached cut.now (return_of m.rank m.call)) }
{
    for member in calls {
        if has_return(cut, member.rank, member.call) {
            return true;
        }
    }
    false
}

/// Whether all of these calls are entered.
fn has_entries(cut: &[u32], calls: &[Member]) -> bool
    ensures { IsTrue result ↔ All (HasEntry cut.now) calls.now }
{
    for member in calls {
        if !has_entry(cut, member.rank, member.call) {
            return false;
        }
    }
    true
}

/// Whether a cut has a point.
pub(crate) fn has_point(cut: &[u32], p: Point) -> bool
    ensures { IsTrue result ↔ IsReached cut.now p }
{
    p.pos < reached(cut, p.rank)
}

/// Whether a rank has entered a call.
pub(crate) fn has_entry(cut: &[u32], rank: Rank, call: u32) -> bool
    ensures { IsTrue result ↔ IsReached cut.now (entry rank call) }
{
    2 * u64::from(call) < u64::from(reached(cut, rank))
}

/// Whether a rank has returned from a call.
pub(crate) fn has_return(cut: &[u32], rank: Rank, call: u32) -> bool
    ensures { IsTrue result ↔ IsReached cut.now (return_of rank call) }
{
    2 * u64::from(call) + 1 < u64::from(reached(cut, rank))
}

/// How many of its first points a rank has reached.
fn reached(cut: &[u32], rank: Rank) -> u32
    ensures { result ≡ slice_index cut.now rank.0 }
{
    match cut.get(rank.0 as usize) {
        Some(n) => *n,
        None => 0,
    }
}
