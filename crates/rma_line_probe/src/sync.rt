//! Calls that access no memory, field by field.
use rma_base::{AccOps, Name, RankSet, WinModel};
use rma_call::{FrameCall, MessageCall, MovingCall, Received, WindowCall};
use rma_table::Failure;

/// Appends ranks.
pub fn push_ranks(text: &mut String, ranks: &RankSet) -> Result<(), Failure> {
    if ranks.numbers().is_empty() {
        text.push_str(" none")?;
    }
    for number in ranks.numbers() {
        write!(text, " {number}")?;
    }
    Ok(())
}

/// Appends a communicator that is declared, or a barrier.
pub fn push_frame(text: &mut String, call: &FrameCall) -> Result<(), Failure> {
    match call {
        FrameCall::Comm { comm, ranks } => {
            write!(text, "declare comm {} ranks", comm.text())?;
            push_ranks(text, ranks)
        }
        FrameCall::Barrier { comm } => Ok(write!(text, "barrier comm {}", comm.text())?),
    }
}

/// Appends a part of a message.
pub fn push_message(text: &mut String, call: &MessageCall) -> Result<(), Failure> {
    match call {
        MessageCall::Send { to, tag, comm } => {
            write!(text, "send to {} tag {tag} comm {}", to.0, comm.text())?
        }
        MessageCall::Recv { from, tag, comm } => {
            write!(text, "recv from {} tag {tag} comm {}", from.0, comm.text())?
        }
        MessageCall::Isend { to, tag, comm } => {
            write!(text, "isend to {} tag {tag} comm {}", to.0, comm.text())?
        }
        MessageCall::Irecv { comm } => write!(text, "irecv comm {}", comm.text())?,
        MessageCall::Wait { received } => push_wait(text, *received)?,
    }
    Ok(())
}

/// Appends the completion of a request, with what came.
fn push_wait(text: &mut String, received: Option<Received>) -> Result<(), Failure> {
    text.push_str("wait")?;
    if let Some(received) = received {
        write!(text, " from {} tag {}", received.from.0, received.tag)?;
    }
    Ok(())
}

/// Appends what a call does to a window, or to the memory of a dynamic one.
pub fn push_window(text: &mut String, call: &WindowCall) -> Result<(), Failure> {
    match call {
        WindowCall::Create {
            window,
            comm,
            base,
            size,
            unit,
            model,
            ops,
            dynamic,
        } => {
            write!(text, "create window {} comm {}", window.text(), comm.text())?;
            write!(text, " base {base} size {size} unit {unit}")?;
            push_kind(text, *model, *ops, *dynamic)
        }
        WindowCall::Free { window } => Ok(write!(text, "free window {}", window.text())?),
        WindowCall::Attach {
            window,
            address,
            size,
        } => push_attach(text, window, *address, *size),
        WindowCall::Detach { window, address } => {
            Ok(write!(text, "detach window {} address {address}", window.text())?)
        }
    }
}

/// Appends the memory that is attached to a window.
fn push_attach(text: &mut String, window: &Name, address: u64, size: u64) -> Result<(), Failure> {
    write!(text, "attach window {}", window.text())?;
    Ok(write!(text, " address {address} size {size}")?)
}

/// Appends the memory model of a window, which operations may meet there, and whether it is dynamic.
fn push_kind(
    text: &mut String,
    model: WinModel,
    ops: AccOps,
    dynamic: bool,
) -> Result<(), Failure> {
    write!(text, " {} {}", model.word(), ops.word())?;
    if dynamic {
        text.push_str(" dynamic")?;
    }
    Ok(())
}

/// Appends a collective that moves data.
pub fn push_moving(text: &mut String, call: &MovingCall) -> Result<(), Failure> {
    match call {
        MovingCall::Bcast { root, bytes, comm } => push_rooted(text, "bcast", root.0, *bytes, comm),
        MovingCall::Scatter { root, bytes, comm } => push_rooted(
            text, "scatter", root.0, *bytes, comm,
        ),
        MovingCall::Gather { root, bytes, comm } => push_rooted(
            text, "gather", root.0, *bytes, comm,
        ),
        MovingCall::Reduce { root, bytes, comm } => push_rooted(
            text, "reduce", root.0, *bytes, comm,
        ),
        MovingCall::Allreduce { bytes, comm } => push_moved(text, "allreduce", *bytes, comm),
        MovingCall::Allgather { bytes, comm } => push_moved(text, "allgather", *bytes, comm),
        MovingCall::Alltoall { bytes, comm } => push_moved(text, "alltoall", *bytes, comm),
    }
}

/// Appends a collective with a root.
fn push_rooted(
    text: &mut String,
    verb: &str,
    root: u32,
    bytes: u64,
    comm: &Name,
) -> Result<(), Failure> {
    Ok(write!(
        text,
        "{verb} root {root} bytes {bytes} comm {}",
        comm.text()
    )?)
}

/// Appends a collective without a root.
fn push_moved(text: &mut String, verb: &str, bytes: u64, comm: &Name) -> Result<(), Failure> {
    Ok(write!(text, "{verb} bytes {bytes} comm {}", comm.text())?)
}
