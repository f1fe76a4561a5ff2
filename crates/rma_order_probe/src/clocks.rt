//! The order of points, as clocks tell it.
ghost use Rattle.std.specs.Prelude.{◌≡◌, ◌<◌, ◌^◌, true, All};
ghost use Rattle.rma_clock.specs.Reached.{points_of};
ghost use Rattle.rma_link.specs.declared.links.Links.{Links};
ghost use Rattle.rma_link.specs.Point.{IsPoint};
ghost use Rattle.rma_order_probe.specs.Linked.{IsOrderedRun};

use crate::asked::point_in;
use crate::linked::OrderedRun;
use crate::text::print_whether;
use rma_base::Point;
use rma_clock::{Clocks, DenseClocks, SharedClocks};
use rma_table::Failure;

/// Prints whether the first of two points is at or before the second.
pub fn print_leq(rt: HostRuntime, run: OrderedRun<'_, '_>, words: &str) -> Result<(), Failure>
    requires { IsOrderedRun ⟦<SharedClocks as Clocks>⟧.are_of run }
{
    let Some((first, second)) = words.split_once(' ') else {
        return Err(Failure::Row);
    };
    let first = point_in(first)?;
    let second = point_in(second)?;
    let is_before = is_at_or_before(run.lens, &run.order.clocks, first, second)?;
    Ok(print_whether(rt, is_before)?)
}

/// Whether the first of two points is at or before the second.
///
/// # Errors
///
/// `Row` where one of them is no point of the run.
#[tactic(auto, using(rma_clock::proofs::ReachedLemmas::point_reached))]
pub fn is_at_or_before<C: Clocks>(
    lens: &[u32],
    clocks: &C,
    first: Point,
    second: Point,
) -> Result<bool, Failure>
    requires { (links : Links) × C.are_of clocks.now (points_of lens.now) links }
{
    if is_point(lens, first) && is_point(lens, second) {
        Ok(clocks.leq(first, second))
    } else {
        Err(Failure::Row)
    }
}

/// Whether it is a point of a run whose ranks make so many calls.
fn is_point(lens: &[u32], point: Point) -> bool
    ensures { result ≡ true → IsPoint lens.now point }
{
    match lens.get(point.rank.0 as usize) {
        Some(len) => point.pos / 2 < *len,
        None => false,
    }
}

/// Prints that shared and dense clocks of a run differ on two of its points, where they do.
pub fn compare_clocks(rt: HostRuntime, run: OrderedRun<'_, '_>) -> Result<(), Failure>
    requires { IsOrderedRun ⟦<SharedClocks as Clocks>⟧.are_of run }
{
    let points = run.order.points.as_slice();
    let dense = DenseClocks::build(rt.alloc(), run.lens, run.linked.links, points)?;
    if !are_alike(run.lens, &run.order.clocks, &dense, points)? {
        println!(rt; "= shared and dense clocks differ")?;
    }
    Ok(())
}

/// Prints that a point stands behind one that it is before, where one does.
pub fn check_points(rt: HostRuntime, run: OrderedRun<'_, '_>) -> Result<(), Failure>
    requires { IsOrderedRun ⟦<SharedClocks as Clocks>⟧.are_of run }
{
    if !are_in_order(run.lens, &run.order.clocks, run.order.points.as_slice())? {
        println!(rt; "= the points are not in order")?;
    }
    Ok(())
}

/// Whether each of some points stands before those that come after it.
fn are_in_order<C: Clocks>(lens: &[u32], clocks: &C, points: &[Point]) -> Result<bool, Failure>
    requires { (links : Links) × C.are_of clocks.now (points_of lens.now) links }
{
    for index in 0..points.len() {
        if is_before_any(lens, clocks, points[index], &points[..index])? {
            return Ok(false);
        }
    }
    Ok(true)
}

/// Whether a point is at or before any of some others.
fn is_before_any<C: Clocks>(
    lens: &[u32],
    clocks: &C,
    point: Point,
    others: &[Point],
) -> Result<bool, Failure>
    requires { (links : Links) × C.are_of clocks.now (points_of lens.now) links }
{
    for other in others {
        if is_at_or_before(lens, clocks, point, *other)? {
            return Ok(true);
        }
    }
    Ok(false)
}

/// Whether two clocks of a run answer alike on all pairs of some points.
fn are_alike<C: Clocks, D: Clocks>(
    lens: &[u32],
    clocks: &C,
    others: &D,
    points: &[Point],
) -> Result<bool, Failure>
    requires clocks { (links : Links) × C.are_of clocks.now (points_of lens.now) links }
    requires others { (links : Links) × D.are_of others.now (points_of lens.now) links }
{
    for first in points {
        if !are_alike_from(lens, clocks, others, *first, points)? {
            return Ok(false);
        }
    }
    Ok(true)
}

/// Whether they do on a point and each of some others.
fn are_alike_from<C: Clocks, D: Clocks>(
    lens: &[u32],
    clocks: &C,
    others: &D,
    first: Point,
    points: &[Point],
) -> Result<bool, Failure>
    requires clocks { (links : Links) × C.are_of clocks.now (points_of lens.now) links }
    requires others { (links : Links) × D.are_of others.now (points_of lens.now) links }
{
    for second in points {
        let answer = is_at_or_before(lens, clocks, first, *second)?;
        let other = is_at_or_before(lens, others, first, *second)?;
        if answer != other {
            return Ok(false);
        }
    }
    Ok(true)
}
