//! The phase of a target in which an access stands.
ghost use Rattle.std.specs.Prelude.{◌≡◌, ◌↔◌, ◌≤◌, IsTrue, Some, length, take, option_map, slice_get};
ghost use Rattle.rma_call.specs.Call.{call_of, what_of};
ghost use Rattle.rma_round.specs.Round.{partner_of};
ghost use Rattle.rma_run.specs.Run.{calls_of};
ghost use Rattle.rma_match.specs.Matches.{AreMatches};
ghost use Rattle.rma_fenced.specs.Fenced.{phase_in, target_at, target_of};
ghost use Rattle.rma_fenced.specs.inside.Keys.{is_phase, key_of, phase_by};

use rma_base::Rank;
use rma_call::{CallList, CallRef, RankCalls, WhatRef};
use rma_epoch::{Epoch, EpochKind, Placed};
use rma_match::Matches;

/// A phase of a target: from a fence of it to its next one on the window.
#[derive(Clone, Copy, Debug, PartialEq, Eq, Hash)]
pub struct Phase {
    /// The target.
    pub target: Rank,
    /// The number of the fence that opens the phase, among the calls of the target.
    pub fence: u32,
}

/// In which phase of its rank an access stands, and at which target.
#[derive(Clone, Copy, Debug)]
pub(crate) struct AccessKey {
    /// The index of the phase, among the epochs of the rank.
    pub epoch: u32,
    /// The target.
    pub target: Rank,
}

/// Whether an access before stands in the same phase and is to the same target.
pub(crate) fn is_same(last: Option<AccessKey>, key: AccessKey) -> bool
    ensures { IsTrue result ↔ (last ≡ Some key) }
{
    match last {
        Some(last) => last.epoch == key.epoch && last.target.0 == key.target.0,
        None => false,
    }
}

/// The key of an access, where it stands in a phase. So many of the calls of its rank are sound.
pub(crate) fn key_of(
    calls: &CallList,
    sound: u32,
    epochs: &[Epoch],
    placed: &Placed,
) -> Option<AccessKey>
    requires { sound ≤ length calls.now.calls }
    ensures { result ≡ key_of epochs.now (take sound calls.now.calls) placed.now }
{
    if !is_phase(epochs, placed.epoch) {
        return None;
    }
    let target = target_at(calls, sound, placed.call)?;
    Some(AccessKey {
        epoch: placed.epoch,
        target,
    })
}

/// Whether the epoch of an index is the phase of a fence.
fn is_phase(epochs: &[Epoch], index: u32) -> bool
    ensures { result ≡ is_phase epochs.now index }
{
    match epochs.get(index as usize) {
        Some(epoch) => matches!(epoch.kind, EpochKind::Fence),
        None => false,
    }
}

/// The target of the call of a number, where it is sound and an access to one.
fn target_at(calls: &CallList, sound: u32, number: u32) -> Option<Rank>
    requires { sound ≤ length calls.now.calls }
    ensures { result ≡ target_at (take sound calls.now.calls) number }
{
    if number >= sound {
        return None;
    }
    target_of(calls.what(calls.what_number(number as usize)))
}

/// The target of a call that does this, where it is an access to one.
fn target_of(what: WhatRef<'_>) -> Option<Rank>
    ensures { result ≡ target_of (what_of what.entry) }
{
    match what {
        WhatRef::Rma(access) => access.target(),
        WhatRef::Epoch(_) => None,
        WhatRef::Window(_) => None,
        WhatRef::Frame(_) => None,
        WhatRef::Message(_) => None,
        WhatRef::Moving(_) => None,
        WhatRef::Local(_) => None,
    }
}

/// The phase of the target in which the accesses of a key stand, where a fence of the target opens it.
pub(crate) fn phase_by(
    ranks: &[RankCalls],
    matches: &Matches,
    rank: Rank,
    epochs: &[Epoch],
    key: AccessKey,
) -> Option<Phase>
    requires { AreMatches ranks.now matches.now }
    ensures { result ≡ phase_by (calls_of ranks.now) rank epochs.now key }
{
    match epochs.get(key.epoch as usize) {
        Some(epoch) => phase_in(ranks, matches, rank, epoch, key.target),
        None => None,
    }
}

/// The phase of a target that is one with an epoch of a rank, where a fence of the target opens it.
fn phase_in(
    ranks: &[RankCalls],
    matches: &Matches,
    rank: Rank,
    epoch: &Epoch,
    target: Rank,
) -> Option<Phase>
    requires { AreMatches ranks.now matches.now }
    ensures { result ≡ phase_in (calls_of ranks.now) rank epoch.now target }
{
    match epoch.kind {
        EpochKind::Fence => match fence_of(ranks, matches, rank, epoch.opener, target) {
            Some(fence) => Some(Phase { target, fence }),
            None => None,
        },
        EpochKind::Start | EpochKind::Lock { .. } | EpochKind::LockAll | EpochKind::Post => None,
    }
}

/// The fence of the target that is of the round of the fence of this number of a rank.
fn fence_of(
    ranks: &[RankCalls],
    matches: &Matches,
    rank: Rank,
    fence: u32,
    target: Rank,
) -> Option<u32>
    requires { AreMatches ranks.now matches.now }
    ensures { result ≡ partner_of (calls_of ranks.now) rank.0 fence target.0 }
{
    match call_at(ranks, rank, fence) {
        Some(call) => matches.rounds.partner(rank, fence, call, target),
        None => None,
    }
}

/// The call of this number of a rank.
fn call_at(ranks: &[RankCalls], rank: Rank, number: u32) -> Option<CallRef<'_>>
    ensures { option_map call_of result ≡ slice_get (calls_of ranks.now rank.0) number }
{
    let own = ranks.get(rank.0 as usize)?.calls();
    if (number as usize) < own.len() {
        Some(own.get(number as usize))
    } else {
        None
    }
}
