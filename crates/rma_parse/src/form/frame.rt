//! The fields of communicators and barriers, and of headers.
ghost use Rattle.std.specs.Prelude.{◌≡◌, ◌∷◌, [], Ok};
ghost use Rattle.rma_base.specs.declared.version.Version.{Version};
ghost use Rattle.rma_call.specs.declared.what.SyncCall.TheVariants as sync;
ghost use Rattle.rma_field.specs.Kinds.{version_of};
ghost use Rattle.rma_field.specs.Steps.{Gives};
ghost use Rattle.rma_form.specs.Forms.{event_in, event_of};

use rma_base::{Name, Version};
use rma_call::{FrameCall, SyncCall};
use rma_field::{ParseError, Texts, rank_field, ranks_field, size_field, version_field};
use rma_form::{Event, LineForm};

pub(crate) fn comm(
    texts: &mut Texts,
    version: Version,
    comm: &[u8],
    ranks: &[u8],
) -> Result<Event, ParseError>
    ensures { Gives result (event_of version LineForm.Comm (comm.now ∷ ranks.now ∷ [])) }
{
    let comm = texts.name(comm)?;
    let ranks = ranks_field(texts.allocator(), version, ranks)?;
    Ok(call(FrameCall::Comm { comm, ranks }, None))
}

pub(crate) fn barrier(texts: &mut Texts, comm: &[u8]) -> Result<Event, ParseError>
    ensures { Gives result (event_of Version.Two LineForm.Barrier (comm.now ∷ [])) }
{
    let comm = texts.name(comm)?;
    Ok(call(FrameCall::Barrier { comm }, None))
}

fn call(call: FrameCall, request: Option<Name>) -> Event
    ensures { result ≡ Event.Call (sync.Frame call) request }
{
    Event::Call {
        call: SyncCall::Frame(call),
        request,
    }
}

// The event of a header, in the version that it names.
pub(crate) fn header(
    log: Version,
    word: &[u8],
    rank: &[u8],
    size: &[u8],
) -> Result<Event, ParseError>
    ensures { Gives result (event_of log LineForm.Header (word.now ∷ rank.now ∷ size.now ∷ [])) }
{
    let _log = log;
    match version_field(word) {
        Ok(version) => header_in(version, word, rank, size),
        Err(error) => Err(error),
    }
}

// The event of a header of this version, which the word names.
fn header_in(version: Version, word: &[u8], rank: &[u8], size: &[u8]) -> Result<Event, ParseError>
    requires { version_of word.now ≡ Ok version }
    ensures { Gives result (event_in version LineForm.Header (word.now ∷ rank.now ∷ size.now ∷ [])) }
{
    let rank = rank_field(version, rank)?;
    let size = size_field(version, size)?;
    Ok(Event::Header {
        version,
        rank,
        size,
    })
}
