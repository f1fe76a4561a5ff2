//! Calls that access memory, field by field.
use rma_bytes::MovedLayout;
use rma_call::{LocalAccess, LocalCall, RmaKind, RmaRef};
use rma_table::Failure;

/// Appends a call that accesses the part of a target.
pub fn push_rma(text: &mut String, call: RmaRef<'_>) -> Result<(), Failure> {
    push_kind(text, call.kind())?;
    push_place(text, call)?;
    push_layout(text, "at", &MovedLayout::unmoved(call.at_target()))?;
    push_buffer(text, "origin", call.origin())?;
    push_buffer(text, "compare", call.compare())?;
    push_buffer(text, "result", call.result())
}

/// Appends what is done at a target.
fn push_kind(text: &mut String, kind: RmaKind) -> Result<(), Failure> {
    match kind {
        RmaKind::Put => text.push_str("put")?,
        RmaKind::Get => text.push_str("get")?,
        RmaKind::Accumulate(op) => write!(text, "acc {}", op.word())?,
        RmaKind::GetAccumulate(op) => write!(text, "getacc {}", op.word())?,
        RmaKind::FetchAndOp(op) => write!(text, "fop {}", op.word())?,
        RmaKind::CompareAndSwap => text.push_str("cas")?,
    }
    Ok(())
}

/// Appends the window, the target, and where in its part the access starts.
fn push_place(text: &mut String, call: RmaRef<'_>) -> Result<(), Failure> {
    write!(text, " window {}", call.window().text())?;
    match call.target() {
        Some(target) => write!(text, " target {}", target.0)?,
        None => text.push_str(" target null")?,
    }
    Ok(write!(text, " displacement {}", call.displacement())?)
}

/// Appends a buffer, where the call has it.
fn push_buffer(
    text: &mut String,
    role: &str,
    layout: Option<MovedLayout<'_>>,
) -> Result<(), Failure> {
    match layout {
        Some(layout) => push_layout(text, role, &layout),
        None => Ok(()),
    }
}

/// Appends what bytes are to a call, the basic datatype of their elements, if there is one, the bytes, and whether elements overlap.
fn push_layout(text: &mut String, role: &str, layout: &MovedLayout<'_>) -> Result<(), Failure> {
    write!(text, " {role}")?;
    match layout.element() {
        Some(element) => write!(text, " {}", element.word())?,
        None if layout.is_empty() => text.push_str(" nothing")?,
        None => text.push_str(" mixed")?,
    }
    push_runs(text, layout)?;
    if layout.overlaps() {
        text.push_str(" overlapping")?;
    }
    Ok(())
}

/// Appends bytes, run by run.
fn push_runs(text: &mut String, layout: &MovedLayout<'_>) -> Result<(), Failure> {
    for index in 0..layout.len() {
        let run = layout.get(index);
        write!(text, " {}+{}", run.start, run.len)?;
    }
    Ok(())
}

/// Appends an access of the rank's own memory.
pub fn push_local(text: &mut String, call: &LocalCall) -> Result<(), Failure> {
    text.push_str(match call.access {
        LocalAccess::Load => "load",
        LocalAccess::Store => "store",
        LocalAccess::Poll => "poll",
    })?;
    push_layout(text, "of", &MovedLayout::unmoved(&call.layout))
}
