//! Which ranks have a part of a window.
ghost use Rattle.std.specs.Prelude.{◌≡◌, ℕ, List, is_none};
ghost use Rattle.std.specs.Option.{option_and_then};
ghost use Rattle.std.specs.List.{list_any};
ghost use Rattle.rma_call.specs.Rma.{access_of};
ghost use Rattle.rma_call.specs.declared.what.What.TheVariants.{Sync};
ghost use Rattle.rma_call.specs.declared.what.SyncCall.TheVariants.{Epoch};
ghost use Rattle.rma_window.specs.Windows.{number_of, part_named, part_of};
ghost use Rattle.rma_call.specs.Call.{what_of};
ghost use Rattle.rma_open.specs.Calls.{number_on, part_on, window_in};
ghost use Rattle.rma_open.specs.Reason.{lacks_part, not_member};

use rma_base::Rank;
use rma_call::{EpochCall, RmaRef, WhatRef};
use rma_window::{Part, WindowId, Windows};

/// The part of the target of a call that does this, where it is an access to a target that has a part of its window. The window
/// has this number among those of the run, if it is one of them.
pub fn part_on(windows: &Windows, window: Option<WindowId>, what: WhatRef<'_>) -> Option<Part>
    requires { window ≡ number_on windows.now (what_of what) }
    ensures { result ≡ part_on windows.now (what_of what.entry) }
{
    match what {
        WhatRef::Rma(access) => target_part(windows, window, access),
        WhatRef::Epoch(_) => None,
        WhatRef::Window(_) => None,
        WhatRef::Frame(_) => None,
        WhatRef::Message(_) => None,
        WhatRef::Moving(_) => None,
        WhatRef::Local(_) => None,
    }
}

/// The same of an access.
fn target_part(windows: &Windows, window: Option<WindowId>, access: RmaRef<'_>) -> Option<Part>
    requires { window ≡ number_of windows.now (access_of access).window }
    ensures { result ≡ option_and_then (part_named windows.now (access_of access.entry).window) (access_of access.entry).target }
{
    match access.target() {
        Some(target) => part_at(windows, window, target),
        None => None,
    }
}

/// Whether some of the ranks that a call names have no part of its window, which has this number.
pub(crate) fn names_stranger(windows: &Windows, window: Option<WindowId>, call: &EpochCall) -> bool
    requires { window ≡ number_of windows.now (window_in call.now) }
    ensures { result ≡ not_member windows.now (Sync (Epoch call.now)) }
{
    match call {
        EpochCall::Post { origins, .. } => any_lacks(windows, window, origins.numbers()),
        EpochCall::Start { targets, .. } => any_lacks(windows, window, targets.numbers()),
        EpochCall::Lock { target, .. } => any_lacks(windows, window, &[target.0]),
        EpochCall::Unlock { target, .. } => any_lacks(windows, window, &[target.0]),
        EpochCall::Flush { target, .. } => any_lacks(windows, window, &[target.0]),
        EpochCall::FlushLocal { target, .. } => any_lacks(windows, window, &[target.0]),
        EpochCall::Fence { .. } => false,
        EpochCall::Complete { .. } => false,
        EpochCall::Expwait { .. } => false,
        EpochCall::LockAll { .. } => false,
        EpochCall::UnlockAll { .. } => false,
        EpochCall::FlushAll { .. } => false,
        EpochCall::FlushLocalAll { .. } => false,
        EpochCall::Sync { .. } => false,
    }
}

/// Whether some of the ranks have no part of a window.
fn any_lacks(windows: &Windows, window: Option<WindowId>, ranks: &[u32]) -> bool
    ensures { result ≡ list_any (λ n. is_none (option_and_then (λ id. part_of windows.now id (record { 0 = n })) window)) ranks.now }
{
    ranks
        .iter()
        .any(|rank| part_at(windows, window, Rank(*rank)).is_none())
}

/// The part of a rank in a window, where there is one.
fn part_at(windows: &Windows, window: Option<WindowId>, rank: Rank) -> Option<Part>
    ensures { result ≡ option_and_then (λ id. part_of windows.now id rank) window }
{
    match window {
        Some(id) => windows.part(id, rank),
        None => None,
    }
}
