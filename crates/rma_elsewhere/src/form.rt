//! The forms of calls, by which their lines are known again. A form decides nothing: whoever notes a line by it finds out whether
//! the line has it.

use rma_base::RankSet;
use rma_call::{EpochCall, FrameCall, LocalAccess, MessageCall, MovingCall, SyncCall, WindowCall};
use rma_form::Access;
use rma_known::CallForm;

/// The form of a call that accesses the part of a target.
pub fn form_of_access(access: &Access) -> CallForm {
    match access {
        Access::Put(_) => CallForm::Put,
        Access::Get(_) => CallForm::Get,
        Access::Accumulate { .. } => CallForm::Accumulate,
        Access::GetAccumulate { .. } => CallForm::GetAccumulate,
        Access::FetchAndOp { .. } => CallForm::FetchAndOp,
        Access::CompareAndSwap { .. } => CallForm::CompareAndSwap,
    }
}

/// The form of a local access.
pub fn form_of_local(access: LocalAccess) -> CallForm {
    match access {
        LocalAccess::Load => CallForm::Load,
        LocalAccess::Store => CallForm::Store,
        LocalAccess::Poll => CallForm::Poll,
    }
}

/// The form of a call that accesses no memory, if programs make it again elsewhere.
pub fn form_of_sync(call: &SyncCall) -> Option<CallForm> {
    match call {
        SyncCall::Frame(call) => Some(form_of_frame(call)),
        SyncCall::Message(call) => Some(form_of_message(call)),
        SyncCall::Window(call) => form_of_window(call),
        SyncCall::Epoch(call) => Some(form_of_epoch(call)),
        SyncCall::Moving(call) => Some(form_of_moving(call)),
    }
}

/// The form of a communicator that is made, or of a barrier.
fn form_of_frame(call: &FrameCall) -> CallForm {
    match call {
        FrameCall::Comm { .. } => CallForm::Comm,
        FrameCall::Barrier { .. } => CallForm::Barrier,
    }
}

/// The form of a message.
fn form_of_message(call: &MessageCall) -> CallForm {
    match call {
        MessageCall::Send { .. } => CallForm::Send,
        MessageCall::Recv { .. } => CallForm::Recv,
        MessageCall::Isend { .. } => CallForm::Isend,
        MessageCall::Irecv { .. } => CallForm::Irecv,
        MessageCall::Wait { received: None } => CallForm::Wait,
        MessageCall::Wait { received: Some(_) } => CallForm::Received,
    }
}

/// The form of a call that attaches memory to a window, or detaches it.
fn form_of_window(call: &WindowCall) -> Option<CallForm> {
    match call {
        WindowCall::Attach { .. } => Some(CallForm::Attach),
        WindowCall::Detach { .. } => Some(CallForm::Detach),
        _ => None,
    }
}

/// The form of a call that opens, completes or closes an epoch.
fn form_of_epoch(call: &EpochCall) -> CallForm {
    match call {
        EpochCall::Fence { .. } => CallForm::Fence,
        EpochCall::Post { origins, .. } if is_one(origins) => CallForm::PostOne,
        EpochCall::Post { .. } => CallForm::Post,
        EpochCall::Start { targets, .. } if is_one(targets) => CallForm::StartOne,
        EpochCall::Start { .. } => CallForm::Start,
        EpochCall::Complete { .. } => CallForm::Complete,
        EpochCall::Expwait { .. } => CallForm::Expwait,
        EpochCall::Lock { .. } => CallForm::Lock,
        EpochCall::Unlock { .. } => CallForm::Unlock,
        EpochCall::LockAll { .. } => CallForm::LockAll,
        EpochCall::UnlockAll { .. } => CallForm::UnlockAll,
        EpochCall::Flush { .. } => CallForm::Flush,
        EpochCall::FlushAll { .. } => CallForm::FlushAll,
        EpochCall::FlushLocal { .. } => CallForm::FlushLocal,
        EpochCall::FlushLocalAll { .. } => CallForm::FlushLocalAll,
        EpochCall::Sync { .. } => CallForm::Sync,
    }
}

/// Whether a group has one rank.
fn is_one(group: &RankSet) -> bool {
    group.numbers().len() == 1
}

/// The form of a collective that moves data.
fn form_of_moving(call: &MovingCall) -> CallForm {
    match call {
        MovingCall::Bcast { .. } => CallForm::Bcast,
        MovingCall::Scatter { .. } => CallForm::Scatter,
        MovingCall::Gather { .. } => CallForm::Gather,
        MovingCall::Reduce { .. } => CallForm::Reduce,
        MovingCall::Allreduce { .. } => CallForm::Allreduce,
        MovingCall::Allgather { .. } => CallForm::Allgather,
        MovingCall::Alltoall { .. } => CallForm::Alltoall,
    }
}
