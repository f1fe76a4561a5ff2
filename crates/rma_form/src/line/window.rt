//! The lines of windows.
ghost use Rattle.std.specs.Prelude.{◌≡◌, ◌∷◌, [], ℕ, List, Option, IfOk, codes, decimal, string_bytes};
ghost use Rattle.std.specs.List.{join_with_byte};
ghost use Rattle.rma_base.specs.Window.{model_word, ops_word};
ghost use Rattle.rma_call.specs.declared.what.SyncCall.TheVariants as sync;
ghost use Rattle.rma_form.specs.Canonical.{spelled};
ghost use Rattle.rma_form.specs.inside.Creations.{creation_words};

use crate::event::Event;
use crate::line::named_line;
use rma_base::{AccOps, Memory, Name, WinModel};
use rma_call::{SyncCall, WindowCall};
use std::alloc::Global;

// The line of a call, without its site.
#[tactic(auto, unfolding(crate::specs::Canonical::spelled))]
pub(crate) fn line(alloc: Global, call: &WindowCall) -> Result<String, Memory>
    ensures { (request : Option (List ℕ)) → IfOk result (λ line. string_bytes line ≡ join_with_byte 32 (spelled (Event.Call (sync.Window call.now) request))) }
{
    match call {
        WindowCall::Create {
            window,
            comm,
            base,
            size,
            unit,
            model,
            ops,
            dynamic,
        } => {
            creation_line(
                alloc, window, comm, *base, *size, *unit, *model, *ops, *dynamic,
            )
        }
        WindowCall::Free { window } => named_line(alloc, "win free", window),
        WindowCall::Attach {
            window,
            address,
            size,
        } => attach_line(alloc, window, *address, *size),
        WindowCall::Detach { window, address } => detach_line(alloc, window, *address),
    }
}

#[allow(clippy::too_many_arguments)]
fn creation_line(
    alloc: Global,
    window: &Name,
    comm: &Name,
    base: u64,
    size: u64,
    unit: u32,
    model: WinModel,
    ops: AccOps,
    dynamic: bool,
) -> Result<String, Memory>
    ensures { IfOk result (λ line. string_bytes line ≡ join_with_byte 32 (creation_words window.now comm.now base size unit model ops dynamic)) }
{
    if dynamic {
        dynamic_line(alloc, window, comm, ops)
    } else {
        create_line(alloc, window, comm, base, size, unit, model, ops)
    }
}

#[allow(clippy::too_many_arguments)]
fn create_line(
    alloc: Global,
    window: &Name,
    comm: &Name,
    base: u64,
    size: u64,
    unit: u32,
    model: WinModel,
    ops: AccOps,
) -> Result<String, Memory>
    ensures { IfOk result (λ line. string_bytes line ≡ join_with_byte 32
        (codes "win" ∷ codes "create" ∷ window.now ∷ comm.now ∷ decimal base ∷ decimal size ∷ decimal unit ∷ model_word model ∷ ops_word ops ∷ [])) }
{
    let info = format!(in alloc; "{unit} {} {}", model.word(), ops.word())?;
    let memory = format!(in alloc; "{base} {size} {info}")?;
    Ok(format!(in alloc; "win create {} {} {memory}", window.text(), comm.text())?)
}

fn dynamic_line(alloc: Global, window: &Name, comm: &Name, ops: AccOps) -> Result<String, Memory>
    ensures { IfOk result (λ line. string_bytes line ≡ join_with_byte 32 (codes "win" ∷ codes "dynamic" ∷ window.now ∷ comm.now ∷ ops_word ops ∷ [])) }
{
    Ok(format!(in alloc;
        "win dynamic {} {} {}",
        window.text(),
        comm.text(),
        ops.word()
    )?)
}

fn attach_line(alloc: Global, window: &Name, address: u64, size: u64) -> Result<String, Memory>
    ensures { IfOk result (λ line. string_bytes line ≡ join_with_byte 32 (codes "attach" ∷ window.now ∷ decimal address ∷ decimal size ∷ [])) }
{
    Ok(format!(in alloc; "attach {} {address} {size}", window.text())?)
}

fn detach_line(alloc: Global, window: &Name, address: u64) -> Result<String, Memory>
    ensures { IfOk result (λ line. string_bytes line ≡ join_with_byte 32 (codes "detach" ∷ window.now ∷ decimal address ∷ [])) }
{
    Ok(format!(in alloc; "detach {} {address}", window.text())?)
}
