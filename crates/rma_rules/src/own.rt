//! Two local accesses, or uses of buffers by calls.
ghost use Rattle.std.specs.Prelude.{◌≡◌, ◌↔◌, ◌⊎◌, IsTrue, Some, true};
ghost use Rattle.rma_rules.specs.declared.rule.Rule.{Rule};
ghost use Rattle.rma_rules.specs.Conflict.{ConflictAtCaller};
ghost use Rattle.rma_rules.specs.Kind.{is_local, is_store};

use crate::access::Access;
use crate::part::share_byte;
use crate::rule::Rule;

/// The rule by which two of them conflict, if they do.
pub(crate) fn conflict_at_caller(a: &Access<'_>, b: &Access<'_>) -> Option<Rule>
    ensures { (rule : Rule) → (result ≡ Some rule) ↔ ConflictAtCaller a.now b.now rule }
{
    if !is_buffer_written(a, b) {
        return None;
    }
    if share_byte(a, b) {
        Some(Rule::Buffer)
    } else {
        None
    }
}

/// Whether one of them is a store, and not both are local.
fn is_buffer_written(a: &Access<'_>, b: &Access<'_>) -> bool
    ensures { IsTrue result ↔ (((is_store a.now.kind ≡ true) ⊎ (is_store b.now.kind ≡ true)) × (¬ ((is_local a.now.kind ≡ true) × (is_local b.now.kind ≡ true)))) }
{
    if a.kind.is_local() && b.kind.is_local() {
        return false;
    }
    a.kind.is_store() || b.kind.is_store()
}
