//! The lines of communicators and barriers. Those of headers and ends stand beside them.
ghost use Rattle.std.specs.Prelude.{◌≡◌, ◌∷◌, [], ℕ, List, Option, IfOk, codes, string_bytes};
ghost use Rattle.std.specs.List.{join_with_byte};
ghost use Rattle.rma_call.specs.declared.what.SyncCall.TheVariants as sync;
ghost use Rattle.rma_field.specs.Ranks.{ranks_text};
ghost use Rattle.rma_form.specs.Canonical.{spelled};

use crate::event::Event;
use crate::line::named_line;
use rma_base::{Memory, Name, Rank, RankSet, Version};
use rma_call::{FrameCall, SyncCall};
use rma_field::ranks_text;
use std::alloc::Global;

// The line of a header, without its site.
#[tactic(auto, unfolding(crate::specs::Canonical::spelled))]
pub(crate) fn header_line(
    alloc: Global,
    version: Version,
    rank: Rank,
    size: u32,
) -> Result<String, Memory>
    ensures { IfOk result (λ line. string_bytes line ≡ join_with_byte 32 (spelled (Event.Header version rank size))) }
{
    Ok(format!(in alloc; "rma {} {} {size}", version.word(), rank.0)?)
}

// The line of an end, without its site.
#[tactic(auto, unfolding(crate::specs::Canonical::spelled))]
pub(crate) fn end_line(alloc: Global) -> Result<String, Memory>
    ensures { IfOk result (λ line. string_bytes line ≡ join_with_byte 32 (spelled Event.End)) }
{
    Ok(format!(in alloc; "end")?)
}

// The line of a call, without its site.
#[tactic(auto, unfolding(crate::specs::Canonical::spelled))]
pub(crate) fn line(alloc: Global, call: &FrameCall) -> Result<String, Memory>
    ensures { (request : Option (List ℕ)) → IfOk result (λ line. string_bytes line ≡ join_with_byte 32 (spelled (Event.Call (sync.Frame call.now) request))) }
{
    match call {
        FrameCall::Comm { comm, ranks } => comm_line(alloc, comm, ranks),
        FrameCall::Barrier { comm } => named_line(alloc, "barrier", comm),
    }
}

fn comm_line(alloc: Global, comm: &Name, ranks: &RankSet) -> Result<String, Memory>
    ensures { IfOk result (λ line. string_bytes line ≡ join_with_byte 32 (codes "comm" ∷ comm.now ∷ ranks_text ranks.now ∷ [])) }
{
    let ranks = ranks_text(alloc, ranks)?;
    Ok(format!(in alloc; "comm {} {ranks}", comm.text())?)
}
