//! Two accumulates through one window.
ghost use Rattle.std.specs.Prelude.{◌≡◌, ◌↔◌, ◌⊎◌, IsTrue, Some, true};
ghost use Rattle.rma_datatype.specs.declared.basic.Basic.{Basic};
ghost use Rattle.rma_rules.specs.declared.rule.Rule.{Rule};
ghost use Rattle.rma_rules.specs.Access.{IsOnWindowOf};
ghost use Rattle.rma_rules.specs.Conflict.{AreThroughOne, ConflictAtTarget};
ghost use Rattle.rma_rules.specs.Element.{Disagree, OperationsAgree};
ghost use Rattle.rma_rules.specs.Kind.{has_no_op, is_accumulate, is_no_op};

use crate::access::Access;
use crate::kind::{Kind, Operation};
use crate::part::{allows_no_op, share_byte};
use crate::rule::Rule;
use crate::walk::clash;
use rma_datatype::Basic;
use rma_window::Windows;

/// The rule by which two accumulates through one window conflict, if they do.
pub(crate) fn conflict_of_accumulates(
    a: &Access<'_>,
    b: &Access<'_>,
    windows: &Windows,
) -> Option<Rule>
    requires a { is_accumulate a.now.kind ≡ true }
    requires b { is_accumulate b.now.kind ≡ true }
    requires one { AreThroughOne a.now b.now }
    requires window { IsOnWindowOf windows.now a.now }
    ensures { (rule : Rule) → (result ≡ Some rule) ↔ ConflictAtTarget windows.now a.now b.now rule }
{
    if neither_combines(a, b) {
        return None;
    }
    if disagree(a, b, windows) {
        Some(Rule::Accumulate)
    } else {
        None
    }
}

/// Whether neither of them has an operation.
fn neither_combines(a: &Access<'_>, b: &Access<'_>) -> bool
    ensures { IsTrue result ↔ ((has_no_op a.now.kind ≡ true) × (has_no_op b.now.kind ≡ true)) }
{
    a.kind.has_no_op() && b.kind.has_no_op()
}

/// Whether two accumulates have a byte in common at which they do not agree.
fn disagree(a: &Access<'_>, b: &Access<'_>, windows: &Windows) -> bool
    requires { IsOnWindowOf windows.now a.now }
    ensures { IsTrue result ↔ Disagree windows.now a.now b.now }
{
    let _first_in_order = a.bytes.len();
    let _second_in_order = b.bytes.len();
    match element_of_both(a, b, windows) {
        Some(element) => clash(&a.bytes, &b.bytes, Some(element.size())),
        None => share_byte(a, b),
    }
}

/// The basic datatype of the elements of both, where they have the same and their operations agree.
fn element_of_both(a: &Access<'_>, b: &Access<'_>, windows: &Windows) -> Option<Basic>
    requires { IsOnWindowOf windows.now a.now }
    ensures { (element : Basic) → (result ≡ Some element) ↔ (OperationsAgree windows.now a.now b.now × (a.now.element ≡ Some element) × (b.now.element ≡ Some element)) }
{
    if a.element == b.element && operations_agree(a, b, windows) {
        a.element
    } else {
        None
    }
}

/// Whether the operations of two accumulates may meet.
fn operations_agree(a: &Access<'_>, b: &Access<'_>, windows: &Windows) -> bool
    requires { IsOnWindowOf windows.now a.now }
    ensures { IsTrue result ↔ OperationsAgree windows.now a.now b.now }
{
    let Kind::Accumulate(one) = a.kind else {
        return false;
    };
    let Kind::Accumulate(two) = b.kind else {
        return false;
    };
    may_meet(one, two) || has_one_no_op(one, two) && allows_no_op(a, windows)
}

/// Whether two operations may meet in every window: they are equal, or one compares and swaps.
fn may_meet(one: Operation, two: Operation) -> bool
    ensures { IsTrue result ↔ ((one ≡ two) ⊎ ((one ≡ Operation.CompareAndSwap) ⊎ (two ≡ Operation.CompareAndSwap))) }
{
    one == two || one.is_swap() || two.is_swap()
}

/// Whether one of two operations leaves the target as it is.
fn has_one_no_op(one: Operation, two: Operation) -> bool
    ensures { IsTrue result ↔ ((is_no_op one ≡ true) ⊎ (is_no_op two ≡ true)) }
{
    one.is_no_op() || two.is_no_op()
}
