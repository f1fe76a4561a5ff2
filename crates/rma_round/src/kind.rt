//! The kinds of calls that every member of a communicator or a window has to make.
ghost use Rattle.std.specs.Prelude.{◌≡◌, option_copied};
ghost use Rattle.rma_call.specs.Call.{what_of};
ghost use Rattle.rma_round.specs.Kind.{comm_of, freed, fenced, comm_of_moving, moved_on, named};

use rma_base::Name;
use rma_call::{EpochCall, FrameCall, MovingCall, WhatRef, WindowCall};

/// A kind of calls that every member has to make.
#[derive(Clone, Copy, Debug, PartialEq, Eq)]
pub enum Kind {
    /// The barriers and the creations of windows on a communicator.
    Collective,
    /// The calls that free a window.
    Free,
    /// The fences of a window.
    Fence,
    /// The calls on a communicator that move data.
    Moving,
}

/// What a call of this kind is on.
pub fn named<'a>(kind: Kind, what: WhatRef<'a>) -> Option<&'a Name>
    ensures { option_copied result ≡ named kind (what_of what.entry) }
{
    match kind {
        Kind::Collective => comm_of(what),
        Kind::Free => freed(what),
        Kind::Fence => fenced(what),
        Kind::Moving => moved_on(what),
    }
}

/// The communicator of a barrier or of a creation of a window.
fn comm_of<'a>(what: WhatRef<'a>) -> Option<&'a Name>
    ensures { option_copied result ≡ comm_of (what_of what.entry) }
{
    match what {
        WhatRef::Frame(FrameCall::Barrier { comm })
        | WhatRef::Window(WindowCall::Create { comm, .. }) => Some(comm),
        _ => None,
    }
}

/// The window that a call frees.
fn freed<'a>(what: WhatRef<'a>) -> Option<&'a Name>
    ensures { option_copied result ≡ freed (what_of what.entry) }
{
    match what {
        WhatRef::Window(WindowCall::Free { window }) => Some(window),
        _ => None,
    }
}

/// The window of a fence.
fn fenced<'a>(what: WhatRef<'a>) -> Option<&'a Name>
    ensures { option_copied result ≡ fenced (what_of what.entry) }
{
    match what {
        WhatRef::Epoch(EpochCall::Fence { window, .. }) => Some(window),
        _ => None,
    }
}

/// The communicator on which a call moves data.
pub fn moved_on<'a>(what: WhatRef<'a>) -> Option<&'a Name>
    ensures { option_copied result ≡ moved_on (what_of what.entry) }
{
    match what {
        WhatRef::Moving(call) => Some(comm_of_moving(call)),
        _ => None,
    }
}

/// The communicator of a call that moves data.
fn comm_of_moving(call: &MovingCall) -> &Name
    ensures { result.now ≡ comm_of_moving call.now }
{
    match call {
        MovingCall::Bcast { comm, .. }
        | MovingCall::Scatter { comm, .. }
        | MovingCall::Gather { comm, .. }
        | MovingCall::Reduce { comm, .. }
        | MovingCall::Allreduce { comm, .. }
        | MovingCall::Allgather { comm, .. }
        | MovingCall::Alltoall { comm, .. } => comm,
    }
}
