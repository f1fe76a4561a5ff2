//! What the definitions of this crate come to.
ghost use Rattle.std.specs.Prelude.{◌≡◌, List};
ghost use Rattle.rma_finding.specs.declared.finding.DoubledPost.{DoubledPost};
ghost use Rattle.rma_finding.specs.declared.finding.ExposedLock.{ExposedLock};
ghost use Rattle.rma_link.specs.declared.links.Links.{Links};
ghost use Rattle.rma_rules.specs.Spans.{Spans};
ghost use Rattle.rma_window.specs.Windows.{Window};
ghost use Rattle.rma_concurrent.specs.Concurrent.{AreDoubled, AreExposed};

/// The lock epochs that may be open while their target is exposed are one list.
pub fn exposed_locks_are_one_list()
    ensures { (links : Links) (windows : List Window) (spans : Spans) (list other : List ExposedLock) → AreExposed links windows spans list → AreExposed links windows spans other → list ≡ other }
{}

/// The posts between the fences of exposures are one list.
pub fn doubled_posts_are_one_list()
    ensures { (windows : List Window) (spans : Spans) (list other : List DoubledPost) → AreDoubled windows spans list → AreDoubled windows spans other → list ≡ other }
{}
