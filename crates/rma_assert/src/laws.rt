//! What the definitions of this crate come to.
ghost use Rattle.std.specs.Prelude.{◌≡◌, List};
ghost use Rattle.rma_call.specs.Call.{RankCalls};
ghost use Rattle.rma_link.specs.declared.links.Links.{Links};
ghost use Rattle.rma_rules.specs.Spans.{Spans};
ghost use Rattle.rma_assert.specs.declared.assertion.BrokenAssertion.{BrokenAssertion};
ghost use Rattle.rma_assert.specs.Broken.{AreBroken};

/// The assertions of a run that do not hold are one list.
pub fn broken_assertions_are_one_list()
    ensures { (links : Links) (ranks : List RankCalls) (spans : Spans) (list other : List BrokenAssertion) → AreBroken links ranks spans list → AreBroken links ranks spans other → list ≡ other }
{}
