//! Which access follows another.
ghost use Rattle.std.specs.Prelude.{◌≡◌, ◌↔◌, ◌≤◌, ℕ, List, Option, Some, Contains, IsTrue};
ghost use Rattle.rma_base.specs.declared.point.Point.{Point};
ghost use Rattle.rma_rules.specs.Access.{Access};
ghost use Rattle.rma_chain.specs.Chain.{IsDoneNoLater, IsFollowedBy, IsNoLater, StartsNoLater};

use crate::deed::do_the_same;
use rma_base::Point;
use rma_rules::Access;

/// Whether an access does the same as another that came before it.
pub(crate) fn is_followed_by(a: &Access<'_>, b: &Access<'_>) -> bool
    ensures { IsTrue result → IsFollowedBy a.now b.now }
{
    starts_no_later(a, b) && is_done_no_later(a, b) && do_the_same(a, b)
}

/// Whether each point at which the first may start is no later than one at which the second may, both by calls of one rank.
fn starts_no_later(a: &Access<'_>, b: &Access<'_>) -> bool
    ensures calls { IsTrue result → a.now.call ≤ b.now.call }
    ensures starts { IsTrue result → StartsNoLater a.now b.now }
{
    is_called_no_later(a, b) && opens_no_later(a.opening, b.opening)
}

/// Whether the first is made by a call of the rank that makes the second, and by no later one.
fn is_called_no_later(a: &Access<'_>, b: &Access<'_>) -> bool
    ensures { IsTrue result ↔ ((a.now.name.rank ≡ b.now.name.rank) × (a.now.call ≤ b.now.call)) }
{
    a.name.rank == b.name.rank && a.call <= b.call
}

/// Whether the first point, if there is one, is no later than the second.
fn opens_no_later(first: Option<Point>, second: Option<Point>) -> bool
    ensures { IsTrue result ↔ ((p : Point) → first ≡ Some p → (q : Point) × (second ≡ Some q) × IsNoLater p q) }
{
    match (first, second) {
        (Some(p), Some(q)) => is_no_later(p, q),
        (Some(_), None) => false,
        (None, _) => true,
    }
}

/// Whether the first is done no later than the second, if that ever is.
fn is_done_no_later(a: &Access<'_>, b: &Access<'_>) -> bool
    ensures { IsTrue result ↔ IsDoneNoLater a.now b.now }
{
    match (a.done, b.done) {
        (Some(p), Some(q)) => is_no_later(p, q),
        (None, Some(_)) => false,
        (_, None) => true,
    }
}

/// Whether a point is another one of its rank, or comes before it.
fn is_no_later(p: Point, q: Point) -> bool
    ensures { IsTrue result ↔ IsNoLater p q }
{
    p.rank == q.rank && p.pos <= q.pos
}
