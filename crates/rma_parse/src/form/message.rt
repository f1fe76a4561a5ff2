//! The fields of messages.
ghost use Rattle.std.specs.Prelude.{◌≡◌, ◌∷◌, []};
ghost use Rattle.rma_base.specs.declared.version.Version.{Version};
ghost use Rattle.rma_call.specs.declared.what.SyncCall.TheVariants as sync;
ghost use Rattle.rma_field.specs.Steps.{Gives};
ghost use Rattle.rma_field.specs.Texts.{texts_at};
ghost use Rattle.rma_form.specs.Forms.{event_of};
ghost use Rattle.rma_form.specs.Tails.{received, tail_of};

use rma_base::{FormReason, Name, Version};
use rma_call::{MessageCall, Received, SyncCall};
use rma_field::{ParseError, Texts, natural, rank_field, refused};
use rma_form::{Event, LineForm};

// The greatest tag of a message.
const TAG: u64 = 2_147_483_647;

pub(crate) fn send(
    texts: &mut Texts,
    version: Version,
    to: &[u8],
    tag: &[u8],
    comm: &[u8],
) -> Result<Event, ParseError>
    ensures { Gives result (event_of version LineForm.Send (to.now ∷ tag.now ∷ comm.now ∷ [])) }
{
    let to = rank_field(version, to)?;
    let tag = natural(tag, 0, TAG)? as u32;
    let comm = texts.name(comm)?;
    Ok(call(MessageCall::Send { to, tag, comm }, None))
}

pub(crate) fn recv(
    texts: &mut Texts,
    version: Version,
    from: &[u8],
    tag: &[u8],
    comm: &[u8],
) -> Result<Event, ParseError>
    ensures { Gives result (event_of version LineForm.Recv (from.now ∷ tag.now ∷ comm.now ∷ [])) }
{
    let from = rank_field(version, from)?;
    let tag = natural(tag, 0, TAG)? as u32;
    let comm = texts.name(comm)?;
    Ok(call(MessageCall::Recv { from, tag, comm }, None))
}

pub(crate) fn isend(
    texts: &mut Texts,
    version: Version,
    request: &[u8],
    to: &[u8],
    tag: &[u8],
    comm: &[u8],
) -> Result<Event, ParseError>
    ensures { Gives result (event_of version LineForm.Isend (request.now ∷ to.now ∷ tag.now ∷ comm.now ∷ [])) }
{
    let request = texts.request(request)?;
    let to = rank_field(version, to)?;
    let tag = natural(tag, 0, TAG)? as u32;
    let comm = texts.name(comm)?;
    Ok(call(MessageCall::Isend { to, tag, comm }, Some(request)))
}

pub(crate) fn irecv(texts: &mut Texts, request: &[u8], comm: &[u8]) -> Result<Event, ParseError>
    ensures { Gives result (event_of Version.Two LineForm.Irecv (request.now ∷ comm.now ∷ [])) }
{
    let request = texts.request(request)?;
    let comm = texts.name(comm)?;
    Ok(call(MessageCall::Irecv { comm }, Some(request)))
}

pub(crate) fn wait(
    texts: &mut Texts,
    version: Version,
    request: &[u8],
    rest: &[&[u8]],
) -> Result<Event, ParseError>
    ensures { Gives result (event_of version LineForm.Wait (request.now ∷ texts_at rest.now)) }
{
    let request = texts.request(request)?;
    let received = received_field(version, rest)?;
    Ok(call(MessageCall::Wait { received }, Some(request)))
}

fn call(call: MessageCall, request: Option<Name>) -> Event
    ensures { result ≡ Event.Call (sync.Message call) request }
{
    Event::Call {
        call: SyncCall::Message(call),
        request,
    }
}

// The source and the tag of a message that was received, or nothing.
fn received_field(version: Version, rest: &[&[u8]]) -> Result<Option<Received>, ParseError>
    ensures { Gives result (tail_of version received (texts_at rest.now)) }
{
    if rest.is_empty() {
        Ok(None)
    } else if rest.len() == 2 {
        source_and_tag(version, rest[0], rest[1])
    } else {
        Err(refused(FormReason::WrongCount))
    }
}

fn source_and_tag(version: Version, from: &[u8], tag: &[u8]) -> Result<Option<Received>, ParseError>
    ensures { Gives result (tail_of version received (from.now ∷ tag.now ∷ [])) }
{
    let from = rank_field(version, from)?;
    let tag = natural(tag, 0, TAG)? as u32;
    Ok(Some(Received { from, tag }))
}
