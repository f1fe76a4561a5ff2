//! Clocks of points that are settled one by one.
ghost use Rattle.std.specs.Prelude.{ℕ, ◌≡◌, List, true, length, All, OnOk};
ghost use Rattle.rma_clock.specs.Reached.{IsNext, points_of};
ghost use Rattle.rma_clock.specs.inside.Live.{AreLive};
ghost use Rattle.rma_link.specs.declared.links.Links.{Links};
ghost use Rattle.rma_order_probe.specs.Linked.{IsOrderedRun};
ghost use Rattle.rma_order_probe.specs.Settled.{AreSettled, IsSettled};

use crate::asked::point_in;
use crate::clocks::is_at_or_before;
use crate::entries::entries_before;
use crate::linked::OrderedRun;
use crate::text::print_point;
use rma_base::limits::FED;
use rma_base::{Point, Rank};
use rma_clock::{Clocks, LiveClocks, SharedClocks};
use rma_link::Links;
use rma_table::Failure;
use std::alloc::Global;
use std::io;

/// Settles points, each after the entries that lead to it, and prints how many are settled, the last one of each rank and of the one
/// that would come next, and that the answers of these clocks differ from those of the whole run, where they do.
///
/// # Errors
///
/// `Row` where a point is not the next one of its rank, or comes after one that is not settled, and `Memory` where there is none left.
pub fn answer(rt: HostRuntime, run: OrderedRun<'_, '_>, words: &str) -> Result<(), Failure>
    requires { IsOrderedRun ⟦<SharedClocks as Clocks>⟧.are_of run }
{
    let Ok(ranks) = u32::try_from(run.lens.len()) else {
        return Err(Failure::Row);
    };
    let mut live = LiveClocks::new(rt.alloc(), ranks)?;
    settle_all(rt.alloc(), &mut live, ranks, run.linked.links, words)?;
    print_settled(rt, ranks, &live)?;
    compare_clocks(rt, run, &live)
}

/// Settles these points in their order.
fn settle_all(
    alloc: Global,
    live: &mut LiveClocks,
    ranks: u32,
    links: &Links,
    words: &str,
) -> Result<(), Failure>
    requires { AreSettled ranks live.old }
    ensures { OnOk result (AreSettled ranks live.new) }
{
    for word in words.split_whitespace() {
        let point = point_in(word)?;
        let sources = entries_before(alloc, links, point)?;
        settle(live, ranks, point, sources.as_slice())?;
    }
    Ok(())
}

/// Settles a point with an edge from each of some others.
fn settle(live: &mut LiveClocks, ranks: u32, point: Point, sources: &[Point]) -> Result<(), Failure>
    requires { AreSettled ranks live.old }
    ensures { OnOk result (AreSettled ranks live.new) }
{
    if !is_next(live, ranks, point) || !are_settled(live, sources) || live.taken() >= 2 * FED {
        return Err(Failure::Row);
    }
    Ok(live.settle(point, sources)?)
}

/// Whether a point is the next one of its rank.
fn is_next(live: &LiveClocks, ranks: u32, point: Point) -> bool
    ensures { result ≡ true → (points : List ℕ) (links : Links) → AreLive points links live.now → length points ≡ ranks → IsNext points point }
{
    if point.rank.0 >= ranks {
        return false;
    }
    match live.last(point.rank) {
        Some(last) => point.pos > last.pos && point.pos - 1 == last.pos,
        None => point.pos == 0,
    }
}

/// Whether some points are settled.
fn are_settled(live: &LiveClocks, points: &[Point]) -> bool
    ensures { result ≡ true → All (IsSettled live.now) points.now }
{
    for point in points {
        if !is_settled(live, *point) {
            return false;
        }
    }
    true
}

/// Whether a point is settled.
fn is_settled(live: &LiveClocks, point: Point) -> bool
    ensures { result ≡ true → IsSettled live.now point }
{
    match live.last(point.rank) {
        Some(last) => point.pos <= last.pos,
        None => false,
    }
}

/// Prints how many points are settled, and the last one of each rank and of the one that would come next.
fn print_settled(rt: HostRuntime, ranks: u32, live: &LiveClocks) -> io::Result<()> {
    print!(rt; "= {} settled, last", live.taken())?;
    for rank in 0..ranks.saturating_add(1) {
        match live.last(Rank(rank)) {
            Some(point) => print_point(rt, point)?,
            None => print!(rt; " none")?,
        }
    }
    println!(rt; "")
}

/// Prints that these clocks and those of the whole run differ on two settled points, where they do.
fn compare_clocks(
    rt: HostRuntime,
    run: OrderedRun<'_, '_>,
    live: &LiveClocks,
) -> Result<(), Failure>
    requires run { IsOrderedRun ⟦<SharedClocks as Clocks>⟧.are_of run }
    requires live { (reached : List ℕ) × (links : Links) × AreLive reached links live.now }
{
    for first in run.order.points.as_slice() {
        if !is_alike_from(run, live, *first)? {
            println!(rt; "= live and shared clocks differ")?;
        }
    }
    Ok(())
}

/// Whether they answer alike on a point and each point of the run.
fn is_alike_from(run: OrderedRun<'_, '_>, live: &LiveClocks, first: Point) -> Result<bool, Failure>
    requires run { IsOrderedRun ⟦<SharedClocks as Clocks>⟧.are_of run }
    requires live { (reached : List ℕ) × (links : Links) × AreLive reached links live.now }
{
    for second in run.order.points.as_slice() {
        if !is_alike(run.lens, &run.order.clocks, live, first, *second)? {
            return Ok(false);
        }
    }
    Ok(true)
}

/// Whether they answer alike on two points, where both are settled.
fn is_alike(
    lens: &[u32],
    clocks: &SharedClocks,
    live: &LiveClocks,
    first: Point,
    second: Point,
) -> Result<bool, Failure>
    requires clocks { (links : Links) × ⟦<SharedClocks as Clocks>⟧.are_of clocks.now (points_of lens.now) links }
    requires live { (reached : List ℕ) × (links : Links) × AreLive reached links live.now }
{
    if !is_settled(live, first) || !is_settled(live, second) {
        return Ok(true);
    }
    let is_before = is_at_or_before(lens, clocks, first, second)?;
    Ok(live.leq(first, second) == is_before)
}
