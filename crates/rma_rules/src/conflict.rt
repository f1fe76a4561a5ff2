//! Which two accesses conflict (MPI 4.0, "One-Sided Communications").
ghost use Rattle.std.specs.Prelude.{◌≡◌, ◌↔◌, Some, None};
ghost use Rattle.rma_rules.specs.declared.rule.Rule.{Rule};
ghost use Rattle.rma_rules.specs.Access.{IsOnWindowOf};
ghost use Rattle.rma_rules.specs.Conflict.{Forbids};

use crate::access::Access;
use crate::own::conflict_at_caller;
use crate::rule::Rule;
use crate::target::{conflict_at_target, conflict_with_target};
use rma_window::Windows;

/// The rule by which two accesses conflict, if they do, where nothing orders them or keeps them apart. It takes no memory, and
/// constant work where each has one run of bytes.
pub fn forbids(a: &Access<'_>, b: &Access<'_>, windows: &Windows) -> Option<Rule>
    requires a { IsOnWindowOf windows.now a.now }
    requires b { IsOnWindowOf windows.now b.now }
    ensures some { (rule : Rule) → (result ≡ Some rule) ↔ Forbids windows.now a.now b.now rule }
    ensures none { (result ≡ None) ↔ ((rule : Rule) → ¬ Forbids windows.now a.now b.now rule) }
{
    if a.memory == b.memory {
        conflict(a, b, windows)
    } else {
        None
    }
}

/// The rule by which two accesses to the memory of one rank conflict, if they do.
fn conflict(a: &Access<'_>, b: &Access<'_>, windows: &Windows) -> Option<Rule>
    requires a { IsOnWindowOf windows.now a.now }
    requires b { IsOnWindowOf windows.now b.now }
    requires memory { a.now.memory ≡ b.now.memory }
    ensures { (rule : Rule) → (result ≡ Some rule) ↔ Forbids windows.now a.now b.now rule }
{
    if a.kind.is_target() {
        if b.kind.is_target() {
            conflict_at_target(a, b, windows)
        } else {
            conflict_with_target(b, a, windows)
        }
    } else if b.kind.is_target() {
        conflict_with_target(a, b, windows)
    } else {
        conflict_at_caller(a, b)
    }
}
