//! The lines of calls that access the part of a target.
ghost use Rattle.std.specs.Prelude.{◌≡◌, ◌++◌, IfOk, OnOk, string_bytes};
ghost use Rattle.std.specs.List.{join_with_byte};
ghost use Rattle.rma_form.specs.Canonical.{spelled};
ghost use Rattle.rma_form.specs.inside.AccessWords.{access_head, access_suffix, buffer_words, operation_head, place_words, transfer_words, verb_head};
ghost use Rattle.rma_form.specs.inside.Suffix.{behind_space};

use crate::event::{Access, Buffer, Event, RmaLine, Transfer};
use rma_base::{Memory, Name};
use rma_datatype::Op;
use std::alloc::Global;

/// The line of a call, without its site.
pub(crate) fn line(alloc: Global, line: &RmaLine, request: &Option<Name>) -> Result<String, Memory>
    ensures { IfOk result (λ text. string_bytes text ≡ join_with_byte 32 (spelled (Event.Rma line.now request.now))) }
{
    let mut text = access_head(alloc, &line.access, request)?;
    push_place(&mut text, line)?;
    push_access(&mut text, &line.access)?;
    Ok(text)
}

// What stands before the window of an access.
fn access_head(alloc: Global, access: &Access, request: &Option<Name>) -> Result<String, Memory>
    ensures { IfOk result (λ head. string_bytes head ≡ access_head access.now request.now) }
{
    match access {
        Access::Put(_) => verb_head(alloc, "put", request),
        Access::Get(_) => verb_head(alloc, "get", request),
        Access::Accumulate { operation, .. } => operation_head(alloc, "acc", request, *operation),
        Access::GetAccumulate { operation, .. } => {
            operation_head(alloc, "getacc", request, *operation)
        }
        Access::FetchAndOp { operation, .. } => operation_head(alloc, "fop", &None, *operation),
        Access::CompareAndSwap { .. } => verb_head(alloc, "cas", &None),
    }
}

// The verb, or that of the request form with the request.
fn verb_head(alloc: Global, verb: &str, request: &Option<Name>) -> Result<String, Memory>
    ensures { IfOk result (λ head. string_bytes head ≡ verb_head verb.now request.now) }
{
    match request {
        Some(request) => Ok(format!(in alloc; "r{verb} {}", request.text())?),
        None => Ok(format!(in alloc; "{verb}")?),
    }
}

// The same with an operation.
fn operation_head(
    alloc: Global,
    verb: &str,
    request: &Option<Name>,
    operation: Op,
) -> Result<String, Memory>
    ensures { IfOk result (λ head. string_bytes head ≡ operation_head verb.now request.now operation) }
{
    let head = verb_head(alloc, verb, request)?;
    Ok(format!(in alloc; "{head} {}", operation.word())?)
}

// Puts the place of an access behind the text.
fn push_place(text: &mut String, line: &RmaLine) -> Result<(), Memory>
    ensures { OnOk result (string_bytes text.new ≡ string_bytes text.old ++ behind_space (place_words line.now.window line.now.target line.now.displacement)) }
{
    let window = line.window.text();
    match line.target {
        Some(rank) => write!(text, " {window} {} {}", rank.0, line.displacement)?,
        None => write!(text, " {window} null {}", line.displacement)?,
    }
    Ok(())
}

// Puts what stands behind the place of an access behind the text.
fn push_access(text: &mut String, access: &Access) -> Result<(), Memory>
    ensures { OnOk result (string_bytes text.new ≡ string_bytes text.old ++ access_suffix access.now) }
{
    match access {
        Access::Put(transfer) | Access::Get(transfer) | Access::Accumulate { transfer, .. } => {
            push_transfer(text, transfer)
        }
        Access::GetAccumulate {
            transfer,
            result: into,
            ..
        } => {
            push_transfer(text, transfer)?;
            push_buffer(text, into)
        }
        Access::FetchAndOp {
            datatype,
            origin,
            result: into,
            ..
        } => {
            write!(text, " {} {origin} {into}", datatype.text())?;
            Ok(())
        }
        Access::CompareAndSwap {
            datatype,
            origin,
            compare,
            result: into,
        } => {
            write!(text, " {} {origin} {compare} {into}", datatype.text())?;
            Ok(())
        }
    }
}

// Puts a transfer behind the text.
fn push_transfer(text: &mut String, transfer: &Transfer) -> Result<(), Memory>
    ensures { OnOk result (string_bytes text.new ≡ string_bytes text.old ++ behind_space (transfer_words transfer.now)) }
{
    let target_type = transfer.target_type.text();
    write!(text, " {} {target_type}", transfer.target_count)?;
    push_buffer(text, &transfer.origin)
}

/// Puts a buffer behind the text.
pub(crate) fn push_buffer(text: &mut String, buffer: &Buffer) -> Result<(), Memory>
    ensures { OnOk result (string_bytes text.new ≡ string_bytes text.old ++ behind_space (buffer_words buffer.now)) }
{
    let datatype = buffer.datatype.text();
    write!(text, " {} {} {datatype}", buffer.address, buffer.count)?;
    Ok(())
}
