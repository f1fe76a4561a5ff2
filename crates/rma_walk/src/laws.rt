//! What the definitions of this crate come to.
ghost use Rattle.std.specs.Prelude.{◌≡◌, ℕ, List, Option};
ghost use Rattle.rma_base.specs.declared.point.Point.{Point};
ghost use Rattle.rma_link.specs.declared.links.Links.{Links};
ghost use Rattle.rma_link.specs.Order.{IsPossible};
ghost use Rattle.rma_link.specs.Within.{AreWithin};
ghost use Rattle.rma_walk.specs.Outcome.{AreFirstImpossible, IsOrder, IsOutcome};
ghost use Rattle.rma_walk.specs.Step.{AreInStep};
ghost use Rattle.rma_walk.specs.declared.walked.Walked.{Walked};

/// The first impossible calls of a run are one list.
pub fn first_impossible_calls_are_one_list()
    ensures { (lens : List ℕ) (links : Links) (firsts others : List (Option ℕ)) → AreFirstImpossible lens links firsts → AreFirstImpossible lens links others → firsts ≡ others }
{}

/// A run that has an order of its points is possible.
pub fn a_run_with_an_order_is_possible()
    ensures { (lens : List ℕ) (links : Links) (list : List Point) → AreWithin lens links → IsOrder lens links list → IsPossible links }
{}

/// A run is possible where no link leads back: an edge leads to a higher position than that from which it comes, and the calls of
/// a meet have one number. So it is where all ranks make as many calls between two that they make together.
pub fn a_run_in_step_is_possible()
    ensures { (links : Links) → AreInStep links → IsPossible links }
{}

/// Each run has an outcome: an order of its points, or first impossible calls.
pub fn every_run_has_an_outcome()
    ensures { (lens : List ℕ) (links : Links) → AreWithin lens links → (walked : Walked) × IsOutcome lens links walked }
{}

/// Each run has first impossible calls, which are none where it is possible.
pub fn every_run_has_first_impossible_calls()
    ensures { (lens : List ℕ) (links : Links) → AreWithin lens links → (firsts : List (Option ℕ)) × AreFirstImpossible lens links firsts }
{}
