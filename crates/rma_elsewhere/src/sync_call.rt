//! Calls that access no memory and are made again elsewhere: with another rank, another tag, other bytes, another address, or
//! another communicator, window or request.
ghost use Rattle.std.specs.Prelude.{◌≡◌, ℕ, List, ◌∷◌, [], IfOk, IfSome, None, Some, is_some, true};
ghost use Rattle.rma_call.specs.Call.{what_of};
ghost use Rattle.rma_call.specs.declared.what.SyncCall.TheVariants as sync;
ghost use Rattle.rma_call.specs.declared.what.What.TheVariants.{Sync};
ghost use Rattle.rma_elsewhere.specs.Elsewhere.{DoesElsewhere, IsSyncAt, epoch_at, frame_at, message_at, moving_at, window_at};

use rma_base::{Memory, Name, Rank, RankSet};
use rma_call::{
    EpochCall, FrameCall, MessageCall, MovingCall, Received, SyncCall, WhatRef, WindowCall,
};
use rma_known::Particulars;
use std::alloc::Global;

/// The same call that accesses no memory with other particulars, where it has a request or none. None, where it is of no such
/// kind, or has other particulars. The name is taken out of the particulars.
pub fn sync_elsewhere(
    alloc: Global,
    requests: bool,
    what: WhatRef<'_>,
    to: &mut Particulars,
) -> Result<Option<SyncCall>, Memory>
    ensures made { IfOk result (λ made. IfSome made (λ call. (from : List ℕ) → DoesElsewhere (what_of what.entry) requests from to.old (Sync call) to.old.request)) }
    ensures request { to.new.request ≡ to.old.request }
{
    if !agrees(requests, to) {
        return Ok(None);
    }
    let name = to.take_out_name();
    call_at(alloc, what, to.numbers(), name)
}

/// Whether there is a request where a call has one.
#[inline]
fn agrees(requests: bool, to: &Particulars) -> bool
    ensures { result ≡ true → requests ≡ is_some to.now.request }
{
    requests == to.requests()
}

/// The same call with other numbers and another name. None, where it has other ones or accesses memory.
fn call_at(
    alloc: Global,
    what: WhatRef<'_>,
    to: &[u64],
    name: Option<Name>,
) -> Result<Option<SyncCall>, Memory>
    ensures { IfOk result (λ found. IfSome found (IsSyncAt (what_of what.entry) to.now name)) }
{
    match what {
        WhatRef::Frame(call) => frame_elsewhere(call, to, name),
        WhatRef::Message(call) => Ok(message_elsewhere(call, to, name)),
        WhatRef::Window(call) => Ok(window_elsewhere(call, to, name)),
        WhatRef::Epoch(call) => epoch_elsewhere(alloc, call, to, name),
        WhatRef::Moving(call) => Ok(moving_elsewhere(call, to, name)),
        WhatRef::Rma(_) => Ok(None),
        WhatRef::Local(_) => Ok(None),
    }
}

/// The same barrier on another communicator, or another communicator of the same ranks.
fn frame_elsewhere(
    call: &FrameCall,
    to: &[u64],
    name: Option<Name>,
) -> Result<Option<SyncCall>, Memory>
    ensures { IfOk result (λ found. IfSome found (λ moved. moved ≡ sync.Frame (frame_at call.now to.now name))) }
{
    let Some(comm) = name else {
        return Ok(None);
    };
    if !to.is_empty() {
        return Ok(None);
    }
    let call = match call {
        FrameCall::Comm { ranks, .. } => FrameCall::Comm {
            comm,
            ranks: ranks.copy()?,
        },
        FrameCall::Barrier { .. } => FrameCall::Barrier { comm },
    };
    Ok(Some(SyncCall::Frame(call)))
}

/// The same message with another rank and another tag, or the completion of another request.
fn message_elsewhere(call: &MessageCall, to: &[u64], name: Option<Name>) -> Option<SyncCall>
    ensures { IfSome result (λ moved. moved ≡ sync.Message (message_at call.now to.now name)) }
{
    match to {
        [] => unnumbered(call, name),
        [rank, tag] => {
            let (Ok(rank), Ok(tag)) = (u32::try_from(*rank), u32::try_from(*tag)) else {
                return None;
            };
            match name {
                Some(comm) => message_on(call, Rank(rank), tag, comm),
                None => received(call, Rank(rank), tag),
            }
        }
        _ => None,
    }
}

/// The same message, where its line has no numbers.
fn unnumbered(call: &MessageCall, name: Option<Name>) -> Option<SyncCall>
    ensures { IfSome result (λ moved. moved ≡ sync.Message (message_at call.now [] name)) }
{
    match name {
        Some(comm) => match call {
            MessageCall::Irecv { .. } => Some(SyncCall::Message(MessageCall::Irecv { comm })),
            _ => None,
        },
        None => match call {
            MessageCall::Wait { received } => Some(SyncCall::Message(MessageCall::Wait {
                received: *received,
            })),
            _ => None,
        },
    }
}

/// The same message, of this rank and this tag on this communicator.
fn message_on(call: &MessageCall, rank: Rank, tag: u32, comm: Name) -> Option<SyncCall>
    ensures { IfSome result (λ moved. moved ≡ sync.Message (message_at call.now (rank.0 ∷ tag ∷ []) (Some comm))) }
{
    match call {
        MessageCall::Send { .. } => Some(SyncCall::Message(MessageCall::Send {
            to: rank,
            tag,
            comm,
        })),
        MessageCall::Recv { .. } => Some(SyncCall::Message(MessageCall::Recv {
            from: rank,
            tag,
            comm,
        })),
        MessageCall::Isend { .. } => Some(SyncCall::Message(MessageCall::Isend {
            to: rank,
            tag,
            comm,
        })),
        _ => None,
    }
}

/// The completion of a request, where this is what came.
fn received(call: &MessageCall, from: Rank, tag: u32) -> Option<SyncCall>
    ensures { IfSome result (λ moved. moved ≡ sync.Message (message_at call.now (from.0 ∷ tag ∷ []) None)) }
{
    match call {
        MessageCall::Wait { .. } => Some(SyncCall::Message(MessageCall::Wait {
            received: Some(Received { from, tag }),
        })),
        _ => None,
    }
}

/// Memory of another window that is attached or detached.
fn window_elsewhere(call: &WindowCall, to: &[u64], name: Option<Name>) -> Option<SyncCall>
    ensures { IfSome result (λ moved. moved ≡ sync.Window (window_at call.now to.now name)) }
{
    let Some(window) = name else {
        return None;
    };
    let [address] = to else {
        return None;
    };
    let address = *address;
    match call {
        WindowCall::Attach { size, .. } => Some(SyncCall::Window(WindowCall::Attach {
            window,
            address,
            size: *size,
        })),
        WindowCall::Detach { .. } => {
            Some(SyncCall::Window(WindowCall::Detach { window, address }))
        }
        _ => None,
    }
}

/// The same call on another window, for another rank if it is for one.
fn epoch_elsewhere(
    alloc: Global,
    call: &EpochCall,
    to: &[u64],
    name: Option<Name>,
) -> Result<Option<SyncCall>, Memory>
    ensures { IfOk result (λ found. IfSome found (λ moved. moved ≡ sync.Epoch (epoch_at call.now to.now name))) }
{
    let Some(window) = name else {
        return Ok(None);
    };
    match to {
        [] => epoch_on(call, window),
        [target] => match u32::try_from(*target) {
            Ok(target) => epoch_for(alloc, call, Rank(target), window),
            Err(_) => Ok(None),
        },
        _ => Ok(None),
    }
}

/// The same call on another window, for the same group if it is for one. None, where it is for a target.
fn epoch_on(call: &EpochCall, window: Name) -> Result<Option<SyncCall>, Memory>
    ensures { IfOk result (λ found. IfSome found (λ moved. moved ≡ sync.Epoch (epoch_at call.now [] (Some window)))) }
{
    let call = match call {
        EpochCall::Fence { assertions, .. } => EpochCall::Fence {
            window,
            assertions: *assertions,
        },
        EpochCall::Post {
            origins,
            assertions,
            ..
        } => EpochCall::Post {
            window,
            origins: origins.copy()?,
            assertions: *assertions,
        },
        EpochCall::Start {
            targets,
            assertions,
            ..
        } => EpochCall::Start {
            window,
            targets: targets.copy()?,
            assertions: *assertions,
        },
        EpochCall::Complete { .. } => EpochCall::Complete { window },
        EpochCall::Expwait { .. } => EpochCall::Expwait { window },
        EpochCall::LockAll { assertions, .. } => EpochCall::LockAll {
            window,
            assertions: *assertions,
        },
        EpochCall::UnlockAll { .. } => EpochCall::UnlockAll { window },
        EpochCall::FlushAll { .. } => EpochCall::FlushAll { window },
        EpochCall::FlushLocalAll { .. } => EpochCall::FlushLocalAll { window },
        EpochCall::Sync { .. } => EpochCall::Sync { window },
        _ => return Ok(None),
    };
    Ok(Some(SyncCall::Epoch(call)))
}

/// The same call on another window for another target, or for a group that has this rank alone. None, where it is for neither.
fn epoch_for(
    alloc: Global,
    call: &EpochCall,
    target: Rank,
    window: Name,
) -> Result<Option<SyncCall>, Memory>
    ensures { IfOk result (λ found. IfSome found (λ moved. moved ≡ sync.Epoch (epoch_at call.now (target.0 ∷ []) (Some window)))) }
{
    let call = match call {
        EpochCall::Post { assertions, .. } => EpochCall::Post {
            window,
            origins: alone(alloc, target)?,
            assertions: *assertions,
        },
        EpochCall::Start { assertions, .. } => EpochCall::Start {
            window,
            targets: alone(alloc, target)?,
            assertions: *assertions,
        },
        EpochCall::Lock {
            kind,
            assertions,
            ..
        } => EpochCall::Lock {
            window,
            target,
            kind: *kind,
            assertions: *assertions,
        },
        EpochCall::Unlock { .. } => EpochCall::Unlock { window, target },
        EpochCall::Flush { .. } => EpochCall::Flush { window, target },
        EpochCall::FlushLocal { .. } => EpochCall::FlushLocal { window, target },
        _ => return Ok(None),
    };
    Ok(Some(SyncCall::Epoch(call)))
}

/// The group that has this rank alone.
fn alone(alloc: Global, rank: Rank) -> Result<RankSet, Memory>
    ensures { IfOk result (λ ranks. ranks ≡ rank.0 ∷ []) }
{
    match RankSet::new(alloc, &[rank]) {
        Ok(ranks) => Ok(ranks),
        Err(_) => Err(Memory),
    }
}

/// The same collective on another communicator, with other bytes, and another root if it has one.
fn moving_elsewhere(call: &MovingCall, to: &[u64], name: Option<Name>) -> Option<SyncCall>
    ensures { IfSome result (λ moved. moved ≡ sync.Moving (moving_at call.now to.now name)) }
{
    let Some(comm) = name else {
        return None;
    };
    match to {
        [root, bytes] => rooted_elsewhere(call, *root, *bytes, comm),
        [bytes] => rootless_elsewhere(call, *bytes, comm),
        _ => None,
    }
}

/// The same collective with another root. None, where it has no root.
fn rooted_elsewhere(call: &MovingCall, root: u64, bytes: u64, comm: Name) -> Option<SyncCall>
    ensures { IfSome result (λ moved. moved ≡ sync.Moving (moving_at call.now (root ∷ bytes ∷ []) (Some comm))) }
{
    let Ok(root) = u32::try_from(root) else {
        return None;
    };
    let root = Rank(root);
    let call = match call {
        MovingCall::Bcast { .. } => MovingCall::Bcast { root, bytes, comm },
        MovingCall::Scatter { .. } => MovingCall::Scatter { root, bytes, comm },
        MovingCall::Gather { .. } => MovingCall::Gather { root, bytes, comm },
        MovingCall::Reduce { .. } => MovingCall::Reduce { root, bytes, comm },
        _ => return None,
    };
    Some(SyncCall::Moving(call))
}

/// The same collective with other bytes. None, where it has a root.
fn rootless_elsewhere(call: &MovingCall, bytes: u64, comm: Name) -> Option<SyncCall>
    ensures { IfSome result (λ moved. moved ≡ sync.Moving (moving_at call.now (bytes ∷ []) (Some comm))) }
{
    let call = match call {
        MovingCall::Allreduce { .. } => MovingCall::Allreduce { bytes, comm },
        MovingCall::Allgather { .. } => MovingCall::Allgather { bytes, comm },
        MovingCall::Alltoall { .. } => MovingCall::Alltoall { bytes, comm },
        _ => return None,
    };
    Some(SyncCall::Moving(call))
}
