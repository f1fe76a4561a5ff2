//! What the window of an access says of it.
ghost use Rattle.std.specs.Prelude.{◌≡◌, ◌≤◌, ◌↔◌, IsTrue, Some};
ghost use Rattle.rma_base.specs.Limits.{address_limit};
ghost use Rattle.rma_window.specs.declared.window_id.WindowId.{WindowId};
ghost use Rattle.rma_rules.specs.Access.{IsOnWindowOf};
ghost use Rattle.rma_rules.specs.Element.{AllowsNoOp};
ghost use Rattle.rma_rules.specs.Share.{IsSeparateAt, IsThroughSeparate, MeetsPart, ShareByte, run_of_part};

use crate::access::Access;
use rma_base::{AccOps, WinModel};
use rma_bytes::Run;
use rma_window::{Part, WindowId, Windows};

/// The window through which an access is made, if that has the separate memory model.
pub(crate) fn separate_window(a: &Access<'_>, windows: &Windows) -> Option<WindowId>
    requires { IsOnWindowOf windows.now a.now }
    ensures { (id : WindowId) → (result ≡ Some id) ↔ IsThroughSeparate windows.now a.now id }
{
    let window = a.window?;
    match windows.model(window) {
        WinModel::Separate => Some(window),
        WinModel::Unified => None,
    }
}

/// Whether an access is made through a window of the separate memory model.
pub(crate) fn is_separate_at(a: &Access<'_>, windows: &Windows) -> bool
    requires { IsOnWindowOf windows.now a.now }
    ensures { IsTrue result ↔ IsSeparateAt windows.now a.now }
{
    separate_window(a, windows).is_some()
}

/// Whether the window of an access lets accumulates with no operation meet others.
pub(crate) fn allows_no_op(a: &Access<'_>, windows: &Windows) -> bool
    requires { IsOnWindowOf windows.now a.now }
    ensures { IsTrue result ↔ AllowsNoOp windows.now a.now }
{
    let Some(window) = a.window else {
        return false;
    };
    match windows.ops(window) {
        AccOps::SameOpNoOp => true,
        AccOps::SameOp => false,
    }
}

/// Whether a byte of an access lies in the part that the rank whose memory it touches has of a window.
pub(crate) fn meets_part(a: &Access<'_>, window: Option<WindowId>, windows: &Windows) -> bool
    ensures { IsTrue result ↔ MeetsPart windows.now a.now window }
{
    let Some(window) = window else {
        return false;
    };
    match windows.part(window, a.memory) {
        Some(part) => a.bytes.meets_run(run_of_part(part)),
        None => false,
    }
}

/// The bytes of a part.
fn run_of_part(part: Part) -> Run
    requires { part.base ≤ address_limit }
    ensures { result ≡ run_of_part part }
{
    Run {
        start: part.base as i64,
        len: part.size,
    }
}

/// Whether two accesses touch the same byte.
pub(crate) fn share_byte(a: &Access<'_>, b: &Access<'_>) -> bool
    ensures { IsTrue result ↔ ShareByte a.now.runs b.now.runs }
{
    a.bytes.meets(&b.bytes)
}
