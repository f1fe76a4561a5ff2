//! The fields of windows.
ghost use Rattle.std.specs.Prelude.{◌≡◌, ◌∷◌, []};
ghost use Rattle.rma_base.specs.declared.version.Version.{Version};
ghost use Rattle.rma_call.specs.declared.what.SyncCall.TheVariants as sync;
ghost use Rattle.rma_field.specs.Steps.{Gives};
ghost use Rattle.rma_form.specs.Forms.{event_of};

use rma_base::limits::SPACE;
use rma_base::{Name, WinModel};
use rma_call::{SyncCall, WindowCall};
use rma_field::{ParseError, Texts, model_field, natural, operations_field};
use rma_form::{Event, LineForm};

pub(crate) fn create(
    texts: &mut Texts,
    window: &[u8],
    comm: &[u8],
    base: &[u8],
    size: &[u8],
    unit: &[u8],
    model: &[u8],
    ops: &[u8],
) -> Result<Event, ParseError>
    ensures { Gives result (event_of Version.Two LineForm.Create (window.now ∷ comm.now ∷ base.now ∷ size.now ∷ unit.now ∷ model.now ∷ ops.now ∷ [])) }
{
    let window = texts.name(window)?;
    let comm = texts.name(comm)?;
    let base = natural(base, 0, SPACE)?;
    let size = natural(size, 0, SPACE)?;
    let unit = natural(unit, 1, 2_147_483_647)? as u32;
    let model = model_field(model)?;
    let ops = operations_field(ops)?;
    Ok(call(
        WindowCall::Create {
            window,
            comm,
            base,
            size,
            unit,
            model,
            ops,
            dynamic: false,
        },
        None,
    ))
}

pub(crate) fn free(texts: &mut Texts, window: &[u8]) -> Result<Event, ParseError>
    ensures { Gives result (event_of Version.Two LineForm.Free (window.now ∷ [])) }
{
    let window = texts.name(window)?;
    Ok(call(WindowCall::Free { window }, None))
}

pub(crate) fn dynamic(
    texts: &mut Texts,
    window: &[u8],
    comm: &[u8],
    ops: &[u8],
) -> Result<Event, ParseError>
    ensures { Gives result (event_of Version.Two LineForm.Dynamic (window.now ∷ comm.now ∷ ops.now ∷ [])) }
{
    let window = texts.name(window)?;
    let comm = texts.name(comm)?;
    let ops = operations_field(ops)?;
    Ok(call(
        WindowCall::Create {
            window,
            comm,
            base: 0,
            size: SPACE,
            unit: 1,
            model: WinModel::Unified,
            ops,
            dynamic: true,
        },
        None,
    ))
}

pub(crate) fn attach(
    texts: &mut Texts,
    window: &[u8],
    address: &[u8],
    size: &[u8],
) -> Result<Event, ParseError>
    ensures { Gives result (event_of Version.Two LineForm.Attach (window.now ∷ address.now ∷ size.now ∷ [])) }
{
    let window = texts.name(window)?;
    let address = natural(address, 0, SPACE)?;
    let size = natural(size, 1, SPACE)?;
    Ok(call(
        WindowCall::Attach {
            window,
            address,
            size,
        },
        None,
    ))
}

pub(crate) fn detach(texts: &mut Texts, window: &[u8], address: &[u8]) -> Result<Event, ParseError>
    ensures { Gives result (event_of Version.Two LineForm.Detach (window.now ∷ address.now ∷ [])) }
{
    let window = texts.name(window)?;
    let address = natural(address, 0, SPACE)?;
    Ok(call(WindowCall::Detach { window, address }, None))
}

fn call(call: WindowCall, request: Option<Name>) -> Event
    ensures { result ≡ Event.Call (sync.Window call) request }
{
    Event::Call {
        call: SyncCall::Window(call),
        request,
    }
}
