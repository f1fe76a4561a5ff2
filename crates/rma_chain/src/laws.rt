//! What the definitions of this crate come to.
ghost use Rattle.std.specs.Prelude.{List};
ghost use Rattle.rma_link.specs.declared.links.Links.{Links};
ghost use Rattle.rma_window.specs.Windows.{Window};
ghost use Rattle.rma_rules.specs.Access.{Access};
ghost use Rattle.rma_rules.specs.Before.{Before};
ghost use Rattle.rma_rules.specs.Spans.{Spans};
ghost use Rattle.rma_chain.specs.Chain.{IsFollowedBy};

/// Where an access is before another, so are those that it follows.
pub fn what_comes_first_is_before_too()
    ensures { (links : Links) (windows : List Window) (spans : Spans) (a next b : Access) → IsFollowedBy a next → Before links windows spans next b → Before links windows spans a b }
{}

/// Where an access comes after another, so do those that follow it.
pub fn what_follows_is_after_too()
    ensures { (links : Links) (windows : List Window) (spans : Spans) (a next b : Access) → IsFollowedBy a next → Before links windows spans b a → Before links windows spans b next }
{}

/// What follows an access that follows another follows that other too.
pub fn what_follows_is_followed()
    ensures { (a b c : Access) → IsFollowedBy a b → IsFollowedBy b c → IsFollowedBy a c }
{}
