//! Which calls make stores and updates visible.
ghost use Rattle.std.specs.Prelude.{◌≡◌};
ghost use Rattle.rma_call.specs.Call.{what_of};
ghost use Rattle.rma_call.specs.declared.what.What.TheVariants.{Sync};
ghost use Rattle.rma_call.specs.declared.what.SyncCall.TheVariants as sync;
ghost use Rattle.rma_visibility.specs.Visibility.{makes_visible, publishes};

use rma_call::{EpochCall, WhatRef, WindowCall};

/// Whether a call that does this publishes to the window that it is on what its rank stored before.
pub fn publishes(what: WhatRef<'_>) -> bool
    ensures { result ≡ publishes (what_of what.entry) }
{
    match what {
        WhatRef::Window(call) => creates_or_frees(call),
        WhatRef::Epoch(call) => ends_access(call),
        WhatRef::Frame(_) => false,
        WhatRef::Message(_) => false,
        WhatRef::Moving(_) => false,
        WhatRef::Rma(_) => false,
        WhatRef::Local(_) => false,
    }
}

/// Whether a call creates or frees a window.
fn creates_or_frees(call: &WindowCall) -> bool
    ensures { result ≡ publishes (Sync (sync.Window call.now)) }
{
    match call {
        WindowCall::Create { .. } => true,
        WindowCall::Free { .. } => true,
        WindowCall::Attach { .. } => false,
        WindowCall::Detach { .. } => false,
    }
}

/// Whether a call of an epoch publishes.
fn ends_access(call: &EpochCall) -> bool
    ensures { result ≡ publishes (Sync (sync.Epoch call.now)) }
{
    match call {
        EpochCall::Fence { .. } => true,
        EpochCall::Post { .. } => true,
        EpochCall::Unlock { .. } => true,
        EpochCall::UnlockAll { .. } => true,
        EpochCall::Sync { .. } => true,
        _ => false,
    }
}

/// Whether a call that does this makes visible to its rank what others updated before through the window that it is on.
pub fn makes_visible(what: WhatRef<'_>) -> bool
    ensures { result ≡ makes_visible (what_of what.entry) }
{
    match what {
        WhatRef::Window(call) => frees(call),
        WhatRef::Epoch(call) => begins_access(call),
        WhatRef::Frame(_) => false,
        WhatRef::Message(_) => false,
        WhatRef::Moving(_) => false,
        WhatRef::Rma(_) => false,
        WhatRef::Local(_) => false,
    }
}

/// Whether a call frees a window.
fn frees(call: &WindowCall) -> bool
    ensures { result ≡ makes_visible (Sync (sync.Window call.now)) }
{
    matches!(call, WindowCall::Free { .. })
}

/// Whether a call of an epoch makes updates visible.
fn begins_access(call: &EpochCall) -> bool
    ensures { result ≡ makes_visible (Sync (sync.Epoch call.now)) }
{
    match call {
        EpochCall::Fence { .. } => true,
        EpochCall::Expwait { .. } => true,
        EpochCall::Lock { .. } => true,
        EpochCall::LockAll { .. } => true,
        EpochCall::Sync { .. } => true,
        _ => false,
    }
}
