//! What the definitions of this crate come to.
ghost use Rattle.std.specs.Prelude.{◌⊎◌, ◌≢◌, List, []};
ghost use Rattle.rma_base.specs.declared.point.Point.{Point};
ghost use Rattle.rma_call.specs.Call.{RankCalls};
ghost use Rattle.rma_link.specs.Order.{IsPossible};
ghost use Rattle.rma_order.specs.declared.impossible.ImpossibleCall.{ImpossibleCall};
ghost use Rattle.rma_order.specs.Impossible.{AreImpossibleCalls};
ghost use Rattle.rma_order.specs.RunLinks.{links_of};
ghost use Rattle.rma_run.specs.Run.{AreInOrder, lens_of};
ghost use Rattle.rma_walk.specs.Outcome.{IsOrder};
ghost use Rattle.rma_happens_before.specs.declared.order.HappensBefore.{HappensBefore};
ghost use Rattle.rma_happens_before.specs.declared.order.RunOrder.TheVariants.{Possible, Impossible};
ghost use Rattle.rma_happens_before.specs.RunOrder.{IsRunOrder};

use rma_clock::{Clocks, SharedClocks};

/// A run is possible, and its points have an order, or it has impossible calls.
pub fn every_run_has_an_order_or_impossible_calls()
    ensures { (ranks : List RankCalls) → AreInOrder ranks → (IsPossible (links_of ranks) × ((points : List Point) × IsOrder (lens_of ranks) (links_of ranks) points)) ⊎ ((calls : List ImpossibleCall) × AreImpossibleCalls ranks calls × (calls ≢ [])) }
{}

/// No run has both an order and impossible calls.
pub fn no_run_has_both()
    ensures { (ranks : List RankCalls) (order : HappensBefore) (calls : List ImpossibleCall) → IsRunOrder ⟦<SharedClocks as Clocks>⟧.are_of ranks (Possible order) → IsRunOrder ⟦<SharedClocks as Clocks>⟧.are_of ranks (Impossible calls) → ⊥ }
{}
