//! What a call completes.
ghost use Rattle.std.specs.Prelude.{◌≡◌, Some};
ghost use Rattle.rma_call.specs.Call.{what_of};
ghost use Rattle.rma_completion.specs.Completing.{completed_by, completing_in};
ghost use Rattle.rma_completion.specs.declared.completing.Completion.TheVariants.{Local, Remote};

use rma_base::Rank;
use rma_call::{EpochCall, WhatRef};

/// How far operations are complete.
#[derive(Clone, Copy, Debug, PartialEq, Eq)]
pub enum Completion {
    /// At the caller: its buffers are free again.
    Local,
    /// At the target too.
    Remote,
}

/// Which operations on its window a call completes.
#[derive(Clone, Copy, Debug, PartialEq, Eq)]
pub struct Completing {
    /// The target of the operations; none for those of all targets.
    pub target: Option<Rank>,
    /// How far they are complete then.
    pub completion: Completion,
}

/// What a call completes on its window, if anything.
pub fn completed_by(what: WhatRef<'_>) -> Option<Completing>
    ensures { result ≡ completed_by (what_of what.entry) }
{
    match what {
        WhatRef::Epoch(call) => completing_in(call),
        _ => None,
    }
}

/// The same of a call that opens, completes or closes an epoch.
fn completing_in(call: &EpochCall) -> Option<Completing>
    ensures { result ≡ completing_in call.now }
{
    match call {
        EpochCall::Complete { .. } => local(None),
        EpochCall::Unlock { target, .. } => remote(Some(*target)),
        EpochCall::UnlockAll { .. } => remote(None),
        EpochCall::Flush { target, .. } => remote(Some(*target)),
        EpochCall::FlushAll { .. } => remote(None),
        EpochCall::FlushLocal { target, .. } => local(Some(*target)),
        EpochCall::FlushLocalAll { .. } => local(None),
        _ => None,
    }
}

/// The operations for a target, or for all, at the caller alone.
fn local(target: Option<Rank>) -> Option<Completing>
    ensures { result ≡ Some (record { target = target; completion = Local }) }
{
    Some(Completing {
        target,
        completion: Completion::Local,
    })
}

/// The operations for a target, or for all, at the target too.
fn remote(target: Option<Rank>) -> Option<Completing>
    ensures { result ≡ Some (record { target = target; completion = Remote }) }
{
    Some(Completing {
        target,
        completion: Completion::Remote,
    })
}
