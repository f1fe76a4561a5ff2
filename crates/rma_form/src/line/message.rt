//! The lines of messages.
ghost use Rattle.std.specs.Prelude.{◌≡◌, ◌∷◌, [], IfOk, codes, decimal, string_bytes, unwrap_or};
ghost use Rattle.std.specs.List.{join_with_byte};
ghost use Rattle.rma_call.specs.declared.what.SyncCall.TheVariants as sync;
ghost use Rattle.rma_form.specs.Canonical.{spelled};
ghost use Rattle.rma_form.specs.Tails.{received_words};

use crate::event::Event;
use rma_base::{Memory, Name, Rank};
use rma_call::{MessageCall, Received, SyncCall};
use std::alloc::Global;

// The line of a call, without its site.
#[tactic(auto, unfolding(crate::specs::Canonical::spelled))]
pub(crate) fn line(
    alloc: Global,
    call: &MessageCall,
    request: &Option<Name>,
) -> Result<String, Memory>
    ensures { IfOk result (λ line. string_bytes line ≡ join_with_byte 32 (spelled (Event.Call (sync.Message call.now) request.now))) }
{
    match call {
        MessageCall::Send { to, tag, comm } => message_line(alloc, "send", *to, *tag, comm),
        MessageCall::Recv { from, tag, comm } => message_line(alloc, "recv", *from, *tag, comm),
        MessageCall::Isend { to, tag, comm } => isend_line(alloc, request, *to, *tag, comm),
        MessageCall::Irecv { comm } => irecv_line(alloc, request, comm),
        MessageCall::Wait { received } => wait_line(alloc, request, *received),
    }
}

// The text of the name, or nothing.
fn text_of(name: &Option<Name>) -> &str
    ensures { result.now ≡ unwrap_or name.now [] }
{
    match name {
        Some(name) => name.text(),
        None => "",
    }
}

fn message_line(
    alloc: Global,
    verb: &str,
    rank: Rank,
    tag: u32,
    comm: &Name,
) -> Result<String, Memory>
    ensures { IfOk result (λ line. string_bytes line ≡ join_with_byte 32 (verb.now ∷ decimal rank.0 ∷ decimal tag ∷ comm.now ∷ [])) }
{
    Ok(format!(in alloc; "{verb} {} {tag} {}", rank.0, comm.text())?)
}

fn isend_line(
    alloc: Global,
    request: &Option<Name>,
    to: Rank,
    tag: u32,
    comm: &Name,
) -> Result<String, Memory>
    ensures { IfOk result (λ line. string_bytes line ≡ join_with_byte 32 (codes "isend" ∷ unwrap_or request.now [] ∷ decimal to.0 ∷ decimal tag ∷ comm.now ∷ [])) }
{
    let request = text_of(request);
    Ok(format!(in alloc; "isend {request} {} {tag} {}", to.0, comm.text())?)
}

fn irecv_line(alloc: Global, request: &Option<Name>, comm: &Name) -> Result<String, Memory>
    ensures { IfOk result (λ line. string_bytes line ≡ join_with_byte 32 (codes "irecv" ∷ unwrap_or request.now [] ∷ comm.now ∷ [])) }
{
    let request = text_of(request);
    Ok(format!(in alloc; "irecv {request} {}", comm.text())?)
}

fn wait_line(
    alloc: Global,
    request: &Option<Name>,
    received: Option<Received>,
) -> Result<String, Memory>
    ensures { IfOk result (λ line. string_bytes line ≡ join_with_byte 32 (codes "wait" ∷ unwrap_or request.now [] ∷ received_words received)) }
{
    let request = text_of(request);
    match received {
        None => Ok(format!(in alloc; "wait {request}")?),
        Some(received) => {
            let from = received.from.0;
            let tag = received.tag;
            Ok(format!(in alloc; "wait {request} {from} {tag}")?)
        }
    }
}
