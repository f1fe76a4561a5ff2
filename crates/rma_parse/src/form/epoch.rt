//! The fields of synchronisation of one-sided communication.
ghost use Rattle.std.specs.Prelude.{◌≡◌, ◌∷◌, []};
ghost use Rattle.rma_base.specs.declared.version.Version.{Version};
ghost use Rattle.rma_call.specs.declared.what.SyncCall.TheVariants as sync;
ghost use Rattle.rma_field.specs.Steps.{Gives};
ghost use Rattle.rma_field.specs.Texts.{texts_at};
ghost use Rattle.rma_form.specs.Forms.{event_of};

use rma_base::{Name, Version};
use rma_call::{EpochCall, SyncCall};
use rma_field::{ParseError, Texts, assertions_field, lock_field, rank_field, ranks_field};
use rma_form::{Event, LineForm};

pub(crate) fn fence(
    texts: &mut Texts,
    version: Version,
    window: &[u8],
    rest: &[&[u8]],
) -> Result<Event, ParseError>
    ensures { Gives result (event_of version LineForm.Fence (window.now ∷ texts_at rest.now)) }
{
    let window = texts.name(window)?;
    let assertions = assertions_field(version, LineForm::Fence.allowed(version), rest)?;
    Ok(call(EpochCall::Fence { window, assertions }, None))
}

pub(crate) fn post(
    texts: &mut Texts,
    version: Version,
    window: &[u8],
    origins: &[u8],
    rest: &[&[u8]],
) -> Result<Event, ParseError>
    ensures { Gives result (event_of version LineForm.Post (window.now ∷ origins.now ∷ texts_at rest.now)) }
{
    let window = texts.name(window)?;
    let origins = ranks_field(texts.allocator(), version, origins)?;
    let assertions = assertions_field(version, LineForm::Post.allowed(version), rest)?;
    Ok(call(
        EpochCall::Post {
            window,
            origins,
            assertions,
        },
        None,
    ))
}

pub(crate) fn start(
    texts: &mut Texts,
    version: Version,
    window: &[u8],
    targets: &[u8],
    rest: &[&[u8]],
) -> Result<Event, ParseError>
    ensures { Gives result (event_of version LineForm.Start (window.now ∷ targets.now ∷ texts_at rest.now)) }
{
    let window = texts.name(window)?;
    let targets = ranks_field(texts.allocator(), version, targets)?;
    let assertions = assertions_field(version, LineForm::Start.allowed(version), rest)?;
    Ok(call(
        EpochCall::Start {
            window,
            targets,
            assertions,
        },
        None,
    ))
}

pub(crate) fn complete(texts: &mut Texts, window: &[u8]) -> Result<Event, ParseError>
    ensures { Gives result (event_of Version.Two LineForm.Complete (window.now ∷ [])) }
{
    let window = texts.name(window)?;
    Ok(call(EpochCall::Complete { window }, None))
}

pub(crate) fn expwait(texts: &mut Texts, window: &[u8]) -> Result<Event, ParseError>
    ensures { Gives result (event_of Version.Two LineForm.Expwait (window.now ∷ [])) }
{
    let window = texts.name(window)?;
    Ok(call(EpochCall::Expwait { window }, None))
}

pub(crate) fn lock(
    texts: &mut Texts,
    version: Version,
    window: &[u8],
    target: &[u8],
    kind: &[u8],
    rest: &[&[u8]],
) -> Result<Event, ParseError>
    ensures { Gives result (event_of version LineForm.Lock (window.now ∷ target.now ∷ kind.now ∷ texts_at rest.now)) }
{
    let window = texts.name(window)?;
    let target = rank_field(version, target)?;
    let kind = lock_field(kind)?;
    let assertions = assertions_field(version, LineForm::Lock.allowed(version), rest)?;
    Ok(call(
        EpochCall::Lock {
            window,
            target,
            kind,
            assertions,
        },
        None,
    ))
}

pub(crate) fn unlock(
    texts: &mut Texts,
    version: Version,
    window: &[u8],
    target: &[u8],
) -> Result<Event, ParseError>
    ensures { Gives result (event_of version LineForm.Unlock (window.now ∷ target.now ∷ [])) }
{
    let window = texts.name(window)?;
    let target = rank_field(version, target)?;
    Ok(call(EpochCall::Unlock { window, target }, None))
}

pub(crate) fn lock_all(
    texts: &mut Texts,
    version: Version,
    window: &[u8],
    rest: &[&[u8]],
) -> Result<Event, ParseError>
    ensures { Gives result (event_of version LineForm.LockAll (window.now ∷ texts_at rest.now)) }
{
    let window = texts.name(window)?;
    let assertions = assertions_field(version, LineForm::LockAll.allowed(version), rest)?;
    Ok(call(EpochCall::LockAll { window, assertions }, None))
}

pub(crate) fn unlock_all(texts: &mut Texts, window: &[u8]) -> Result<Event, ParseError>
    ensures { Gives result (event_of Version.Two LineForm.UnlockAll (window.now ∷ [])) }
{
    let window = texts.name(window)?;
    Ok(call(EpochCall::UnlockAll { window }, None))
}

pub(crate) fn flush(
    texts: &mut Texts,
    version: Version,
    window: &[u8],
    target: &[u8],
) -> Result<Event, ParseError>
    ensures { Gives result (event_of version LineForm.Flush (window.now ∷ target.now ∷ [])) }
{
    let window = texts.name(window)?;
    let target = rank_field(version, target)?;
    Ok(call(EpochCall::Flush { window, target }, None))
}

pub(crate) fn flush_all(texts: &mut Texts, window: &[u8]) -> Result<Event, ParseError>
    ensures { Gives result (event_of Version.Two LineForm.FlushAll (window.now ∷ [])) }
{
    let window = texts.name(window)?;
    Ok(call(EpochCall::FlushAll { window }, None))
}

pub(crate) fn flush_local(
    texts: &mut Texts,
    version: Version,
    window: &[u8],
    target: &[u8],
) -> Result<Event, ParseError>
    ensures { Gives result (event_of version LineForm.FlushLocal (window.now ∷ target.now ∷ [])) }
{
    let window = texts.name(window)?;
    let target = rank_field(version, target)?;
    Ok(call(EpochCall::FlushLocal { window, target }, None))
}

pub(crate) fn flush_local_all(texts: &mut Texts, window: &[u8]) -> Result<Event, ParseError>
    ensures { Gives result (event_of Version.Two LineForm.FlushLocalAll (window.now ∷ [])) }
{
    let window = texts.name(window)?;
    Ok(call(EpochCall::FlushLocalAll { window }, None))
}

pub(crate) fn sync(texts: &mut Texts, window: &[u8]) -> Result<Event, ParseError>
    ensures { Gives result (event_of Version.Two LineForm.Sync (window.now ∷ [])) }
{
    let window = texts.name(window)?;
    Ok(call(EpochCall::Sync { window }, None))
}

fn call(call: EpochCall, request: Option<Name>) -> Event
    ensures { result ≡ Event.Call (sync.Epoch call) request }
{
    Event::Call {
        call: SyncCall::Epoch(call),
        request,
    }
}
