//! The lines of synchronisation of one-sided communication.
ghost use Rattle.std.specs.Prelude.{◌≡◌, ◌∷◌, [], ℕ, List, Option, IfOk, codes, decimal, string_bytes};
ghost use Rattle.std.specs.List.{join_with_byte};
ghost use Rattle.rma_call.specs.declared.what.SyncCall.TheVariants as sync;
ghost use Rattle.rma_field.specs.Kinds.{lock_word};
ghost use Rattle.rma_field.specs.Ranks.{ranks_text};
ghost use Rattle.rma_form.specs.Canonical.{spelled};

use crate::event::Event;
use crate::line::{asserted_line, named_line};
use rma_base::{Memory, Name, Rank, RankSet};
use rma_call::{EpochCall, LockKind, SyncCall};
use rma_field::{lock_word, ranks_text};
use std::alloc::Global;

// The line of a call, without its site.
#[tactic(auto, unfolding(crate::specs::Canonical::spelled))]
pub(crate) fn line(alloc: Global, call: &EpochCall) -> Result<String, Memory>
    ensures { (request : Option (List ℕ)) → IfOk result (λ line. string_bytes line ≡ join_with_byte 32 (spelled (Event.Call (sync.Epoch call.now) request))) }
{
    match call {
        EpochCall::Fence { window, assertions } => {
            let line = named_line(alloc, "fence", window)?;
            asserted_line(line, *assertions)
        }
        EpochCall::Post {
            window,
            origins,
            assertions,
        } => {
            let line = group_line(alloc, "post", window, origins)?;
            asserted_line(line, *assertions)
        }
        EpochCall::Start {
            window,
            targets,
            assertions,
        } => {
            let line = group_line(alloc, "start", window, targets)?;
            asserted_line(line, *assertions)
        }
        EpochCall::Lock {
            window,
            target,
            kind,
            assertions,
        } => {
            let line = lock_line(alloc, window, *target, *kind)?;
            asserted_line(line, *assertions)
        }
        EpochCall::LockAll { window, assertions } => {
            let line = named_line(alloc, "lockall", window)?;
            asserted_line(line, *assertions)
        }
        EpochCall::Complete { window } => named_line(alloc, "complete", window),
        EpochCall::Expwait { window } => named_line(alloc, "expwait", window),
        EpochCall::Unlock { window, target } => target_line(alloc, "unlock", window, *target),
        EpochCall::UnlockAll { window } => named_line(alloc, "unlockall", window),
        EpochCall::Flush { window, target } => target_line(alloc, "flush", window, *target),
        EpochCall::FlushAll { window } => named_line(alloc, "flushall", window),
        EpochCall::FlushLocal { window, target } => target_line(
            alloc,
            "flushlocal",
            window,
            *target,
        ),
        EpochCall::FlushLocalAll { window } => named_line(alloc, "flushlocalall", window),
        EpochCall::Sync { window } => named_line(alloc, "sync", window),
    }
}

fn target_line(alloc: Global, verb: &str, window: &Name, target: Rank) -> Result<String, Memory>
    ensures { IfOk result (λ line. string_bytes line ≡ join_with_byte 32 (verb.now ∷ window.now ∷ decimal target.0 ∷ [])) }
{
    Ok(format!(in alloc; "{verb} {} {}", window.text(), target.0)?)
}

fn group_line(alloc: Global, verb: &str, window: &Name, group: &RankSet) -> Result<String, Memory>
    ensures { IfOk result (λ line. string_bytes line ≡ join_with_byte 32 (verb.now ∷ window.now ∷ ranks_text group.now ∷ [])) }
{
    let group = ranks_text(alloc, group)?;
    Ok(format!(in alloc; "{verb} {} {group}", window.text())?)
}

fn lock_line(alloc: Global, window: &Name, target: Rank, kind: LockKind) -> Result<String, Memory>
    ensures { IfOk result (λ line. string_bytes line ≡ join_with_byte 32 (codes "lock" ∷ window.now ∷ decimal target.0 ∷ lock_word kind ∷ [])) }
{
    Ok(format!(in alloc; "lock {} {} {}", window.text(), target.0, lock_word(kind))?)
}
