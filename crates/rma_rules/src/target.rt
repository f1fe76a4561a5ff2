//! Accesses of targets: beside the caller's own, and beside one another.
ghost use Rattle.std.specs.Prelude.{◌≡◌, ◌⊎◌, ◌↔◌, IsTrue, Some, true};
ghost use Rattle.rma_rules.specs.declared.rule.Rule.{Rule};
ghost use Rattle.rma_rules.specs.Access.{IsOnWindowOf};
ghost use Rattle.rma_rules.specs.Conflict.{AreThroughOne, AreUpdatesApart, ConflictAtTarget, ConflictsWithTarget};
ghost use Rattle.rma_rules.specs.Kind.{is_accumulate, is_own, is_poll, is_store, is_target, is_update};
ghost use Rattle.rma_rules.specs.Share.{IsSeparateAt, MeetsPart};

use crate::access::Access;
use crate::accumulate::conflict_of_accumulates;
use crate::part::{is_separate_at, meets_part, share_byte};
use crate::rule::Rule;
use rma_window::Windows;

/// The rule by which a local access, or the use of a buffer, conflicts with an access of a target, if it does.
pub(crate) fn conflict_with_target(
    own: &Access<'_>,
    target: &Access<'_>,
    windows: &Windows,
) -> Option<Rule>
    requires own { is_own own.now.kind ≡ true }
    requires target { is_target target.now.kind ≡ true }
    requires window { IsOnWindowOf windows.now target.now }
    ensures { (rule : Rule) → (result ≡ Some rule) ↔ ConflictsWithTarget windows.now own.now target.now rule }
{
    if !may_not_share(own, target, windows) {
        return None;
    }
    if share_byte(own, target) {
        return Some(Rule::Overlap);
    }
    if is_store_beside(own, target, windows) {
        Some(Rule::StoreInWindow)
    } else {
        None
    }
}

/// Whether the two may not touch the same byte: a store and any access of a target, a load and an update, and a poll and an update
/// through a window of the separate model.
fn may_not_share(own: &Access<'_>, target: &Access<'_>, windows: &Windows) -> bool
    requires { IsOnWindowOf windows.now target.now }
    ensures { IsTrue result ↔ ((is_store own.now.kind ≡ true) ⊎ ((is_update target.now.kind ≡ true) × ((¬ (is_poll own.now.kind ≡ true)) ⊎ IsSeparateAt windows.now target.now))) }
{
    if own.kind.is_store() {
        return true;
    }
    target.kind.is_update() && (!own.kind.is_poll() || is_separate_at(target, windows))
}

/// Whether a store lies in the rank's part of the window of the separate model through which an update is made.
fn is_store_beside(own: &Access<'_>, target: &Access<'_>, windows: &Windows) -> bool
    requires { IsOnWindowOf windows.now target.now }
    ensures { IsTrue result ↔ ((is_store own.now.kind ≡ true) × (is_update target.now.kind ≡ true) × IsSeparateAt windows.now target.now × MeetsPart windows.now own.now target.now.window) }
{
    own.kind.is_store()
        && target.kind.is_update()
        && is_separate_at(target, windows)
        && meets_part(own, target.window, windows)
}

/// The rule by which two accesses of a target conflict, if they do.
pub(crate) fn conflict_at_target(a: &Access<'_>, b: &Access<'_>, windows: &Windows) -> Option<Rule>
    requires a { is_target a.now.kind ≡ true }
    requires b { is_target b.now.kind ≡ true }
    requires a_window { IsOnWindowOf windows.now a.now }
    requires b_window { IsOnWindowOf windows.now b.now }
    ensures { (rule : Rule) → (result ≡ Some rule) ↔ ConflictAtTarget windows.now a.now b.now rule }
{
    if are_accumulates_on_one(a, b) {
        return conflict_of_accumulates(a, b, windows);
    }
    if !is_one_update(a, b) {
        return None;
    }
    if share_byte(a, b) {
        return Some(Rule::Overlap);
    }
    if are_updates_beside(a, b, windows) {
        Some(Rule::OtherWindow)
    } else {
        None
    }
}

/// Whether one of them writes.
fn is_one_update(a: &Access<'_>, b: &Access<'_>) -> bool
    ensures { IsTrue result ↔ ((is_update a.now.kind ≡ true) ⊎ (is_update b.now.kind ≡ true)) }
{
    a.kind.is_update() || b.kind.is_update()
}

/// Whether both are accumulates through one window.
fn are_accumulates_on_one(a: &Access<'_>, b: &Access<'_>) -> bool
    ensures { IsTrue result ↔ ((is_accumulate a.now.kind ≡ true) × (is_accumulate b.now.kind ≡ true) × AreThroughOne a.now b.now) }
{
    a.kind.is_accumulate() && b.kind.is_accumulate() && a.window == b.window
}

/// Whether both are updates through two windows, one of them of the separate model, and one touches the rank's part of the other's.
fn are_updates_beside(a: &Access<'_>, b: &Access<'_>, windows: &Windows) -> bool
    requires a { IsOnWindowOf windows.now a.now }
    requires b { IsOnWindowOf windows.now b.now }
    ensures { IsTrue result ↔ (AreUpdatesApart a.now b.now × (IsSeparateAt windows.now a.now ⊎ IsSeparateAt windows.now b.now) × (MeetsPart windows.now a.now b.now.window ⊎ MeetsPart windows.now b.now a.now.window)) }
{
    let are_apart = a.kind.is_update() && b.kind.is_update() && a.window != b.window;
    are_apart
        && (is_separate_at(a, windows) || is_separate_at(b, windows))
        && (meets_part(a, b.window, windows) || meets_part(b, a.window, windows))
}
