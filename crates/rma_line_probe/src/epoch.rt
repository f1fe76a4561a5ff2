//! Calls that open, complete or close an epoch, field by field.
use crate::sync::push_ranks;
use rma_base::{Name, Rank};
use rma_call::{Assertion, Assertions, EpochCall, LockKind};
use rma_table::Failure;

/// The assertions, in the order of the canonical line.
const ASSERTIONS: [Assertion; 5] = [
    Assertion::Nocheck,
    Assertion::Noprecede,
    Assertion::Nosucceed,
    Assertion::Nostore,
    Assertion::Noput,
];

/// Appends a call that opens, completes or closes an epoch.
pub fn push_epoch(text: &mut String, call: &EpochCall) -> Result<(), Failure> {
    let window = window_of(call).text();
    write!(text, "{} window {window}", verb_of(call))?;
    match call {
        EpochCall::Post { origins, .. } => {
            text.push_str(" origins")?;
            push_ranks(text, origins)?;
        }
        EpochCall::Start { targets, .. } => {
            text.push_str(" targets")?;
            push_ranks(text, targets)?;
        }
        _ => push_target(text, call)?,
    }
    push_assertions(text, assertions_of(call))
}

/// The verb of a call.
fn verb_of(call: &EpochCall) -> &'static str {
    match call {
        EpochCall::Fence { .. } => "fence",
        EpochCall::Post { .. } => "post",
        EpochCall::Start { .. } => "start",
        EpochCall::Complete { .. } => "complete",
        EpochCall::Expwait { .. } => "expwait",
        EpochCall::Lock { .. } => "lock",
        EpochCall::Unlock { .. } => "unlock",
        EpochCall::LockAll { .. } => "lockall",
        EpochCall::UnlockAll { .. } => "unlockall",
        EpochCall::Flush { .. } => "flush",
        EpochCall::FlushAll { .. } => "flushall",
        EpochCall::FlushLocal { .. } => "flushlocal",
        EpochCall::FlushLocalAll { .. } => "flushlocalall",
        EpochCall::Sync { .. } => "sync",
    }
}

/// The window of a call.
fn window_of(call: &EpochCall) -> &Name {
    match call {
        EpochCall::Fence { window, .. }
        | EpochCall::Post { window, .. }
        | EpochCall::Start { window, .. }
        | EpochCall::Complete { window }
        | EpochCall::Expwait { window }
        | EpochCall::Lock { window, .. }
        | EpochCall::Unlock { window, .. }
        | EpochCall::LockAll { window, .. }
        | EpochCall::UnlockAll { window }
        | EpochCall::Flush { window, .. }
        | EpochCall::FlushAll { window }
        | EpochCall::FlushLocal { window, .. }
        | EpochCall::FlushLocalAll { window }
        | EpochCall::Sync { window } => window,
    }
}

/// The assertions of a call.
fn assertions_of(call: &EpochCall) -> Assertions {
    match call {
        EpochCall::Fence { assertions, .. }
        | EpochCall::Post { assertions, .. }
        | EpochCall::Start { assertions, .. }
        | EpochCall::Lock { assertions, .. }
        | EpochCall::LockAll { assertions, .. } => *assertions,
        _ => Assertions::none(),
    }
}

/// Appends the target of a call, and the kind of a lock, where it has these.
fn push_target(text: &mut String, call: &EpochCall) -> Result<(), Failure> {
    match call {
        EpochCall::Lock { target, kind, .. } => push_lock(text, *target, *kind),
        EpochCall::Unlock { target, .. }
        | EpochCall::Flush { target, .. }
        | EpochCall::FlushLocal { target, .. } => Ok(write!(text, " target {}", target.0)?),
        _ => Ok(()),
    }
}

/// Appends the target of a lock, and its kind.
fn push_lock(text: &mut String, target: Rank, kind: LockKind) -> Result<(), Failure> {
    write!(text, " target {}", target.0)?;
    match kind {
        LockKind::Exclusive => text.push_str(" excl")?,
        LockKind::Shared => text.push_str(" shared")?,
    }
    Ok(())
}

/// Appends those assertions that a call makes.
fn push_assertions(text: &mut String, assertions: Assertions) -> Result<(), Failure> {
    for assertion in ASSERTIONS {
        if assertions.has(assertion) {
            write!(text, " {}", assertion.word())?;
        }
    }
    Ok(())
}
