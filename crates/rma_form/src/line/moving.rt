//! The lines of collectives that move data.
ghost use Rattle.std.specs.Prelude.{◌≡◌, ◌∷◌, [], ℕ, List, Option, IfOk, decimal, string_bytes};
ghost use Rattle.std.specs.List.{join_with_byte};
ghost use Rattle.rma_call.specs.declared.what.SyncCall.TheVariants as sync;
ghost use Rattle.rma_form.specs.Canonical.{spelled};

use crate::event::Event;
use rma_base::{Memory, Name, Rank};
use rma_call::{MovingCall, SyncCall};
use std::alloc::Global;

// The line of a call, without its site.
#[tactic(auto, unfolding(crate::specs::Canonical::spelled))]
pub(crate) fn line(alloc: Global, call: &MovingCall) -> Result<String, Memory>
    ensures { (request : Option (List ℕ)) → IfOk result (λ line. string_bytes line ≡ join_with_byte 32 (spelled (Event.Call (sync.Moving call.now) request))) }
{
    match call {
        MovingCall::Bcast { root, bytes, comm } => {
            rooted_line(alloc, "bcast", *root, *bytes, comm)
        }
        MovingCall::Scatter { root, bytes, comm } => {
            rooted_line(alloc, "scatter", *root, *bytes, comm)
        }
        MovingCall::Gather { root, bytes, comm } => {
            rooted_line(alloc, "gather", *root, *bytes, comm)
        }
        MovingCall::Reduce { root, bytes, comm } => {
            rooted_line(alloc, "reduce", *root, *bytes, comm)
        }
        MovingCall::Allreduce { bytes, comm } => moving_line(alloc, "allreduce", *bytes, comm),
        MovingCall::Allgather { bytes, comm } => moving_line(alloc, "allgather", *bytes, comm),
        MovingCall::Alltoall { bytes, comm } => moving_line(alloc, "alltoall", *bytes, comm),
    }
}

fn rooted_line(
    alloc: Global,
    verb: &str,
    root: Rank,
    bytes: u64,
    comm: &Name,
) -> Result<String, Memory>
    ensures { IfOk result (λ line. string_bytes line ≡ join_with_byte 32 (verb.now ∷ decimal root.0 ∷ decimal bytes ∷ comm.now ∷ [])) }
{
    Ok(format!(in alloc; "{verb} {} {bytes} {}", root.0, comm.text())?)
}

fn moving_line(alloc: Global, verb: &str, bytes: u64, comm: &Name) -> Result<String, Memory>
    ensures { IfOk result (λ line. string_bytes line ≡ join_with_byte 32 (verb.now ∷ decimal bytes ∷ comm.now ∷ [])) }
{
    Ok(format!(in alloc; "{verb} {bytes} {}", comm.text())?)
}
