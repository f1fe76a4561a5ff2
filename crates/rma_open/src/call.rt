//! The windows that calls are on.
ghost use Rattle.std.specs.Prelude.{◌≡◌, option_copied};
ghost use Rattle.rma_call.specs.Call.{what_of};
ghost use Rattle.rma_open.specs.Calls.{window_in, window_on};

use rma_base::Name;
use rma_call::{EpochCall, WhatRef, WindowCall};

/// The window that a call is on: that of an epoch, of an access to a target, or of a free.
pub fn window_on<'a>(what: WhatRef<'a>) -> Option<&'a Name>
    ensures { option_copied result ≡ window_on (what_of what.entry) }
{
    match what {
        WhatRef::Rma(call) => Some(call.window()),
        WhatRef::Epoch(call) => Some(window_in(call)),
        WhatRef::Window(WindowCall::Free { window }) => Some(window),
        _ => None,
    }
}

/// The window of a call that opens, completes or closes an epoch.
fn window_in(call: &EpochCall) -> &Name
    ensures { result.now ≡ window_in call.now }
{
    match call {
        EpochCall::Fence { window, .. } => window,
        EpochCall::Post { window, .. } => window,
        EpochCall::Start { window, .. } => window,
        EpochCall::Complete { window } => window,
        EpochCall::Expwait { window } => window,
        EpochCall::Lock { window, .. } => window,
        EpochCall::Unlock { window, .. } => window,
        EpochCall::LockAll { window, .. } => window,
        EpochCall::UnlockAll { window } => window,
        EpochCall::Flush { window, .. } => window,
        EpochCall::FlushAll { window } => window,
        EpochCall::FlushLocal { window, .. } => window,
        EpochCall::FlushLocalAll { window } => window,
        EpochCall::Sync { window } => window,
    }
}
