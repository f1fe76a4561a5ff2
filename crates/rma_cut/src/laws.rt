//! What the definitions of this crate come to.
ghost use Rattle.std.specs.Prelude.{◌≡◌, ℕ, List};
ghost use Rattle.rma_link.specs.declared.links.Links.{Links};
ghost use Rattle.rma_link.specs.Order.{IsPossible};
ghost use Rattle.rma_link.specs.Within.{AreWithin};
ghost use Rattle.rma_clock.specs.Reached.{points_of};
ghost use Rattle.rma_window.specs.Windows.{Window};
ghost use Rattle.rma_rules.specs.Access.{Access};
ghost use Rattle.rma_rules.specs.Before.{Before};
ghost use Rattle.rma_rules.specs.Spans.{Spans};
ghost use Rattle.rma_cut.specs.Cut.{IsClosed};
ghost use Rattle.rma_cut.specs.Show.{AreLeast, IsStoredThere, ShowRace};
ghost use Rattle.rma_cut.specs.declared.cuts.Cuts.{Cuts};

/// All points of a run are a closed cut.
pub fn a_run_is_a_closed_cut()
    ensures { (lens : List ℕ) (links : Links) → AreWithin lens links → IsClosed links (points_of lens) }
{}

/// Where two cuts of a possible run show that neither of two accesses is before the other, neither is.
pub fn shown_accesses_are_unordered()
    ensures { (links : Links) (lens : List ℕ) (windows : List Window) (spans : Spans) (a b : Access) (cuts : Cuts) → ShowRace links lens windows spans a b cuts → IsPossible links → IsStoredThere a → IsStoredThere b
        → (¬ Before links windows spans a b) × (¬ Before links windows spans b a) }
{}

/// Where neither of two accesses is before the other, the least cuts show it.
pub fn least_cuts_show_it()
    ensures { (links : Links) (lens : List ℕ) (windows : List Window) (spans : Spans) (a b : Access) (cuts : Cuts) → AreLeast links lens windows spans a b cuts → IsStoredThere a → IsStoredThere b
        → ¬ Before links windows spans a b → ¬ Before links windows spans b a → ShowRace links lens windows spans a b cuts }
{}

/// Two accesses have one pair of least cuts.
pub fn least_cuts_are_one()
    ensures { (links : Links) (lens : List ℕ) (windows : List Window) (spans : Spans) (a b : Access) (cuts others : Cuts) → AreLeast links lens windows spans a b cuts → AreLeast links lens windows spans a b others → cuts ≡ others }
{}
