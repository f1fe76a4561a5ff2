//! What tells the order of points.
ghost use Rattle.std.specs.Prelude.{ℕ, ◌≡◌, ◌↔◌, true, List};
ghost use Rattle.rma_link.specs.declared.links.Links.{Links};
ghost use Rattle.rma_link.specs.Order.{IsAtOrBefore};
ghost use Rattle.rma_clock.specs.Reached.{IsReached};

use rma_base::Point;

/// What tells the order of two points of a run.
pub trait Clocks {
    /// That they are the clocks of the first points of each rank, so many by rank, of a run with these links.
    ghost are_of: { Self → List ℕ → Links → Type 0 };

    /// Whether the first point is at or before the second.
    fn leq(&self, p: Point, q: Point) -> bool
        requires { (points : List ℕ) × (links : Links) × are_of self.now points links × IsReached points p × IsReached points q }
        ensures { (points : List ℕ) (links : Links) → are_of self.now points links → IsReached points p → IsReached points q → (result ≡ true) ↔ IsAtOrBefore links p q };
}
