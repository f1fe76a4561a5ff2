//! How far each rank is known to be before all that is still to come.
ghost use Rattle.std.specs.Prelude.{◌≡◌, ◌≤◌, ◌↔◌, ℕ, List, Some, None, IfOk, IsTrue, replicate, slice_get, slice_set};
ghost use Rattle.rma_link.specs.declared.links.Links.{Links};
ghost use Rattle.rma_clock.specs.Reached.{IsReached};
ghost use Rattle.rma_history.specs.History.{AreEntered};
ghost use Rattle.rma_history.specs.inside.Passed.{AreBehind, IsBeforeAll};

use crate::next_calls::is_before_all;
use rma_base::{Memory, Point};
use rma_clock::Clocks;
use std::alloc::Global;
use std::marker::Model;

/// Points that are known to be at or before the entry of the next call of each rank that has one, so that the clocks are not asked again
/// of those which come before them. Contracts see it as the list of their positions by rank.
#[derive(Drop)]
pub(crate) struct Horizon {
    /// Of each rank the position of the latest of its points that is known to be one.
    known: Vec<Option<u32>>,
}

impl Model for Horizon {
    ghost use Rattle.std.specs.Prelude.{List, Option, ℕ};

    ghost Value = { List (Option ℕ) };

    ghost view = { λ horizon. horizon.known.items };
}

impl Horizon {
    /// Nothing known, of so many ranks.
    ///
    /// # Errors
    ///
    /// `Memory` where there is none left.
    pub(crate) fn new(alloc: Global, ranks: usize) -> Result<Horizon, Memory>
        ensures { IfOk result (λ horizon. horizon ≡ replicate ranks None) }
    {
        Ok(Horizon {
            known: vec![in alloc; None; ranks]?,
        })
    }

    /// Whether a point is at or before the entry of the next call of each rank that has one. The clocks are asked only where it is not
    /// known.
    pub(crate) fn passes<C: Clocks>(&mut self, p: Point, next: &[Option<u32>], clocks: &C) -> bool
        requires { (points : List ℕ) × (links : Links) × C.are_of clocks.now points links × IsReached points p × AreEntered points next.now }
        ensures answer { (points : List ℕ) (links : Links) → C.are_of clocks.now points links → IsReached points p → AreEntered points next.now → AreBehind links next.now self.old → IsTrue result → IsBeforeAll links next.now p }
        ensures behind { (points : List ℕ) (links : Links) → C.are_of clocks.now points links → IsReached points p → AreEntered points next.now → AreBehind links next.now self.old → AreBehind links next.now self.new }
    {
        if self.is_known(p) {
            return true;
        }
        if !is_before_all(p, next, clocks) {
            return false;
        }
        self.note(p);
        true
    }

    /// Whether a point is at or before the known one of its rank.
    fn is_known(&self, p: Point) -> bool
        ensures { IsTrue result ↔ ((pos : ℕ) × (slice_get self.now p.rank.0 ≡ Some (Some pos)) × (p.pos ≤ pos)) }
    {
        match self.known.get(p.rank.0 as usize) {
            Some(Some(pos)) => p.pos <= *pos,
            _ => false,
        }
    }

    /// Takes a point for the known one of its rank, if that has a place.
    fn note(&mut self, p: Point)
        ensures { self.new ≡ slice_set self.old p.rank.0 (Some p.pos) }
    {
        if let Some(known) = self.known.get_mut(p.rank.0 as usize) {
            *known = Some(p.pos);
        }
    }
}
