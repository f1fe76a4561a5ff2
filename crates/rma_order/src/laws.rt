//! What the definitions of this crate come to.
ghost use Rattle.std.specs.Prelude.{ℕ, ◌≡◌, ◌≢◌, ◌↔◌, List, []};
ghost use Rattle.rma_base.specs.declared.point.Point.{Point};
ghost use Rattle.rma_call.specs.Call.{RankCalls};
ghost use Rattle.rma_link.specs.declared.links.Links.{Links};
ghost use Rattle.rma_link.specs.Order.{IsAtOrBefore, IsPossible};
ghost use Rattle.rma_run.specs.Run.{AreInOrder};
ghost use Rattle.rma_walk.specs.Outcome.{IsOrder};
ghost use Rattle.rma_order.specs.declared.impossible.ImpossibleCall.{ImpossibleCall};
ghost use Rattle.rma_order.specs.Impossible.{AreImpossibleCalls};
ghost use Rattle.rma_order.specs.RunLinks.{LinkTheSame, links_of};

/// Every run has a list of impossible calls.
pub fn every_run_has_impossible_calls()
    ensures { (ranks : List RankCalls) → AreInOrder ranks → (found : List ImpossibleCall) × AreImpossibleCalls ranks found }
{}

/// The impossible calls of a run are one list.
pub fn impossible_calls_are_one_list()
    ensures { (ranks : List RankCalls) (found others : List ImpossibleCall) → AreImpossibleCalls ranks found → AreImpossibleCalls ranks others → found ≡ others }
{}

/// A run is possible, or it has impossible calls, and not both.
pub fn impossible_calls_say_that_a_run_is_not_possible()
    ensures { (ranks : List RankCalls) (found : List ImpossibleCall) → AreImpossibleCalls ranks found → found ≢ [] → IsPossible (links_of ranks) → ⊥ }
{}

/// Links that lead from and to the same points give one order of the points.
pub fn links_that_link_the_same_give_one_order()
    ensures order { (links others : Links) → LinkTheSame links others → (p q : Point) → IsAtOrBefore links p q ↔ IsAtOrBefore others p q }
    ensures possible { (links others : Links) → LinkTheSame links others → IsPossible links ↔ IsPossible others }
    ensures lists { (links others : Links) → LinkTheSame links others → (lens : List ℕ) (list : List Point) → IsOrder lens links list ↔ IsOrder lens others list }
{}
