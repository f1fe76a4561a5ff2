//! What the definitions of this crate come to.
ghost use Rattle.std.specs.Prelude.{◌≡◌, ◌++◌, ◌∷◌, [], ℕ, List};
ghost use Rattle.rma_base.specs.declared.rank.Rank.{Rank};
ghost use Rattle.rma_window.specs.Windows.{Window};
ghost use Rattle.rma_window.specs.declared.window_id.WindowId.{WindowId};
ghost use Rattle.rma_rules.specs.declared.rule.Rule.{Rule};
ghost use Rattle.rma_rules.specs.declared.span.Owner.{Owner};
ghost use Rattle.rma_rules.specs.Access.{Access};
ghost use Rattle.rma_rules.specs.Conflict.{Forbids};
ghost use Rattle.rma_rules.specs.Lock.{Separated};
ghost use Rattle.rma_rules.specs.Spans.{calls_under, with_call};

/// Which of two accesses is the first makes no difference to what forbids them.
pub fn conflicts_are_symmetric()
    ensures { (windows : List Window) (a b : Access) (rule : Rule) → Forbids windows a b rule → Forbids windows b a rule }
{}

/// Two accesses conflict by one rule at most.
pub fn conflicts_have_one_rule()
    ensures { (windows : List Window) (a b : Access) (one two : Rule) → Forbids windows a b one → Forbids windows a b two → one ≡ two }
{}

/// Which of two accesses is the first makes no difference to whether locks keep them apart.
pub fn separation_is_symmetric()
    ensures { (a b : Access) → Separated a b → Separated b a }
{}

/// A call that is added comes last under its rank and window, and nothing else changes.
pub fn added_calls_come_last()
    ensures there { (lists : List (Owner × List ℕ)) (rank : Rank) (window : WindowId) (call : ℕ) → calls_under (with_call lists rank window call) rank window ≡ calls_under lists rank window ++ call ∷ [] }
    ensures others { (lists : List (Owner × List ℕ)) (rank other : Rank) (window elsewhere : WindowId) (call : ℕ) → ((rank ≡ other) × (window ≡ elsewhere) → ⊥) → calls_under (with_call lists rank window call) other elsewhere ≡ calls_under lists other elsewhere }
{}
