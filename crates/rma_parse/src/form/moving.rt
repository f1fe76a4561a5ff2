//! The fields of collectives that move data.
ghost use Rattle.std.specs.Prelude.{◌≡◌, ◌∷◌, []};
ghost use Rattle.rma_base.specs.declared.version.Version.{Version};
ghost use Rattle.rma_call.specs.declared.what.SyncCall.TheVariants as sync;
ghost use Rattle.rma_field.specs.Steps.{Gives};
ghost use Rattle.rma_form.specs.Forms.{event_of};

use rma_base::limits::SPACE;
use rma_base::{Name, Version};
use rma_call::{MovingCall, SyncCall};
use rma_field::{ParseError, Texts, natural, rank_field};
use rma_form::{Event, LineForm};

pub(crate) fn bcast(
    texts: &mut Texts,
    version: Version,
    root: &[u8],
    bytes: &[u8],
    comm: &[u8],
) -> Result<Event, ParseError>
    ensures { Gives result (event_of version LineForm.Bcast (root.now ∷ bytes.now ∷ comm.now ∷ [])) }
{
    let root = rank_field(version, root)?;
    let bytes = natural(bytes, 0, SPACE)?;
    let comm = texts.name(comm)?;
    Ok(call(MovingCall::Bcast { root, bytes, comm }, None))
}

pub(crate) fn scatter(
    texts: &mut Texts,
    version: Version,
    root: &[u8],
    bytes: &[u8],
    comm: &[u8],
) -> Result<Event, ParseError>
    ensures { Gives result (event_of version LineForm.Scatter (root.now ∷ bytes.now ∷ comm.now ∷ [])) }
{
    let root = rank_field(version, root)?;
    let bytes = natural(bytes, 0, SPACE)?;
    let comm = texts.name(comm)?;
    Ok(call(MovingCall::Scatter { root, bytes, comm }, None))
}

pub(crate) fn gather(
    texts: &mut Texts,
    version: Version,
    root: &[u8],
    bytes: &[u8],
    comm: &[u8],
) -> Result<Event, ParseError>
    ensures { Gives result (event_of version LineForm.Gather (root.now ∷ bytes.now ∷ comm.now ∷ [])) }
{
    let root = rank_field(version, root)?;
    let bytes = natural(bytes, 0, SPACE)?;
    let comm = texts.name(comm)?;
    Ok(call(MovingCall::Gather { root, bytes, comm }, None))
}

pub(crate) fn reduce(
    texts: &mut Texts,
    version: Version,
    root: &[u8],
    bytes: &[u8],
    comm: &[u8],
) -> Result<Event, ParseError>
    ensures { Gives result (event_of version LineForm.Reduce (root.now ∷ bytes.now ∷ comm.now ∷ [])) }
{
    let root = rank_field(version, root)?;
    let bytes = natural(bytes, 0, SPACE)?;
    let comm = texts.name(comm)?;
    Ok(call(MovingCall::Reduce { root, bytes, comm }, None))
}

pub(crate) fn allreduce(texts: &mut Texts, bytes: &[u8], comm: &[u8]) -> Result<Event, ParseError>
    ensures { Gives result (event_of Version.Two LineForm.Allreduce (bytes.now ∷ comm.now ∷ [])) }
{
    let bytes = natural(bytes, 0, SPACE)?;
    let comm = texts.name(comm)?;
    Ok(call(MovingCall::Allreduce { bytes, comm }, None))
}

pub(crate) fn allgather(texts: &mut Texts, bytes: &[u8], comm: &[u8]) -> Result<Event, ParseError>
    ensures { Gives result (event_of Version.Two LineForm.Allgather (bytes.now ∷ comm.now ∷ [])) }
{
    let bytes = natural(bytes, 0, SPACE)?;
    let comm = texts.name(comm)?;
    Ok(call(MovingCall::Allgather { bytes, comm }, None))
}

pub(crate) fn alltoall(texts: &mut Texts, bytes: &[u8], comm: &[u8]) -> Result<Event, ParseError>
    ensures { Gives result (event_of Version.Two LineForm.Alltoall (bytes.now ∷ comm.now ∷ [])) }
{
    let bytes = natural(bytes, 0, SPACE)?;
    let comm = texts.name(comm)?;
    Ok(call(MovingCall::Alltoall { bytes, comm }, None))
}

fn call(call: MovingCall, request: Option<Name>) -> Event
    ensures { result ≡ Event.Call (sync.Moving call) request }
{
    Event::Call {
        call: SyncCall::Moving(call),
        request,
    }
}
