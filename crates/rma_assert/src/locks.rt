//! Locks whose `nocheck` does not hold.
ghost use Rattle.std.specs.Prelude.{◌≡◌, ◌||◌, ◌↔◌, ℕ, true, List, Some, All, Contains, IsTrue, OnOk, ◌<◌, ◌≤◌, IfOk, length, slice_get};
ghost use Rattle.std.specs.List.Sorted.{IsPermutation};
ghost use Rattle.rma_assert.specs.inside.Held.{WindowsRise};
ghost use Rattle.rma_call.specs.Call.{what_of};
ghost use Rattle.rma_clock.specs.Reached.{points_of};
ghost use Rattle.rma_link.specs.declared.links.Links.{Links};
ghost use Rattle.rma_rules.specs.declared.span.LockSpan.{LockSpan};
ghost use Rattle.rma_run.specs.Run.{calls_of, lens_of};
ghost use Rattle.rma_concurrent.specs.Concurrent.{IsLockAskable};
ghost use Rattle.rma_concurrent.specs.inside.Places.{HasMore};
ghost use Rattle.rma_assert.specs.declared.locks.Locking.{Locking};
ghost use Rattle.rma_assert.specs.Locks.{HaveTarget, IsLockBroken, IsLockedBeside, IsUnlockedFirst, MayBeHeldAtOnce, is_exclusive, kind_of, locking_at};

use crate::asserting::{entry_of, return_from};
use crate::assertion::{AssertionReason, BrokenAssertion};
use rma_base::{Memory, Rank};
use rma_call::{CallList, EpochCall, LockKind, RankCalls, WhatRef};
use rma_clock::Clocks;
use rma_rules::LockSpan;
use rma_window::WindowId;
use std::alloc::Global;

/// How a call locks.
#[derive(Clone, Copy, Debug, PartialEq, Eq)]
pub(crate) struct Locking {
    /// Whether it keeps all other locks away.
    pub(crate) exclusive: bool,
    /// Whether it says `nocheck`.
    pub(crate) nocheck: bool,
}

/// Adds the reports of the lock epochs of a run. This is plain: each that says `nocheck` is compared with all others of its window.
///
/// # Errors
///
/// `Memory`, and then nothing is said of what is listed.
pub(crate) fn add_locks<C: Clocks>(
    alloc: Global,
    found: &mut Vec<BrokenAssertion>,
    locks: &[LockSpan],
    ranks: &[RankCalls],
    clocks: &C,
) -> Result<(), Memory>
    requires askable { All (IsLockAskable (points_of (lens_of ranks.now))) locks.now }
    requires clocks { (links : Links) × C.are_of clocks.now (points_of (lens_of ranks.now)) links }
    ensures { OnOk result ((links : Links) → C.are_of clocks.now (points_of (lens_of ranks.now)) links → HasMore (IsLockBroken links (calls_of ranks.now) locks.now) found.old.items found.new.items) }
{
    let list = by_window(alloc, locks)?;
    add_of_locks(found, &list, ranks, clocks)
}

/// The lock epochs by window.
fn by_window(alloc: Global, locks: &[LockSpan]) -> Result<Vec<LockSpan>, Memory>
    ensures permutation { IfOk result (λ list. IsPermutation locks.now list.items) }
    ensures rise { IfOk result (λ list. WindowsRise list.items) }
{
    let mut list = Vec::from_slice(alloc, locks)?;
    sort(&mut list);
    Ok(list)
}

/// Sorts lock epochs by window.
fn sort(list: &mut Vec<LockSpan>)
    ensures permutation { IsPermutation list.old.items list.new.items }
    ensures rise { WindowsRise list.new.items }
{
    list.sort_unstable_by_key(|own| own.window.0);
}

/// Where those of a window stand: the index of the first, and that behind the last.
fn range_of(list: &[LockSpan], window: WindowId) -> (usize, usize)
    requires { WindowsRise list.now }
    ensures bound { result.1 ≤ length list.now }
    ensures all { (k : ℕ) (own : LockSpan) → slice_get list.now k ≡ Some own → own.window ≡ window → (result.0 ≤ k) × (k < result.1) }
{
    let start = list.partition_point(|own| own.window.0 < window.0);
    let end = list.partition_point(|own| own.window.0 <= window.0);
    (start, end)
}

/// The same of lock epochs that stand by window.
fn add_of_locks<C: Clocks>(
    found: &mut Vec<BrokenAssertion>,
    locks: &[LockSpan],
    ranks: &[RankCalls],
    clocks: &C,
) -> Result<(), Memory>
    requires askable { All (IsLockAskable (points_of (lens_of ranks.now))) locks.now }
    requires rise { WindowsRise locks.now }
    requires clocks { (links : Links) × C.are_of clocks.now (points_of (lens_of ranks.now)) links }
    ensures { OnOk result ((links : Links) → C.are_of clocks.now (points_of (lens_of ranks.now)) links → HasMore (IsLockBroken links (calls_of ranks.now) locks.now) found.old.items found.new.items) }
{
    for own in locks {
        add_of_lock(found, own, locks, ranks, clocks)?;
    }
    Ok(())
}

/// Adds those of one lock epoch, if its call says `nocheck`.
fn add_of_lock<C: Clocks>(
    found: &mut Vec<BrokenAssertion>,
    own: &LockSpan,
    locks: &[LockSpan],
    ranks: &[RankCalls],
    clocks: &C,
) -> Result<(), Memory>
    requires own { IsLockAskable (points_of (lens_of ranks.now)) own.now }
    requires askable { All (IsLockAskable (points_of (lens_of ranks.now))) locks.now }
    requires rise { WindowsRise locks.now }
    requires clocks { (links : Links) × C.are_of clocks.now (points_of (lens_of ranks.now)) links }
    ensures { OnOk result ((links : Links) → C.are_of clocks.now (points_of (lens_of ranks.now)) links
        → HasMore (λ x. (other : LockSpan) × Contains locks.now other × IsLockedBeside links (calls_of ranks.now) own.now other x) found.old.items found.new.items) }
{
    match nocheck_of(own, ranks) {
        Some(kind) => add_beside(found, own, kind, locks, ranks, clocks),
        None => Ok(()),
    }
}

/// Adds those of one whose call says `nocheck`.
fn add_beside<C: Clocks>(
    found: &mut Vec<BrokenAssertion>,
    own: &LockSpan,
    kind: Locking,
    locks: &[LockSpan],
    ranks: &[RankCalls],
    clocks: &C,
) -> Result<(), Memory>
    requires own { IsLockAskable (points_of (lens_of ranks.now)) own.now }
    requires kind { locking_at (calls_of ranks.now) own.now ≡ Some kind }
    requires says { kind.nocheck ≡ true }
    requires askable { All (IsLockAskable (points_of (lens_of ranks.now))) locks.now }
    requires rise { WindowsRise locks.now }
    requires clocks { (links : Links) × C.are_of clocks.now (points_of (lens_of ranks.now)) links }
    ensures { OnOk result ((links : Links) → C.are_of clocks.now (points_of (lens_of ranks.now)) links
        → HasMore (λ x. (other : LockSpan) × Contains locks.now other × IsLockedBeside links (calls_of ranks.now) own.now other x) found.old.items found.new.items) }
{
    let (start, end) = range_of(locks, own.window);
    for place in start..end {
        add_pair(found, own, kind, &locks[place], ranks, clocks)?;
    }
    Ok(())
}

/// Adds that of two lock epochs, where the first says `nocheck`.
fn add_pair<C: Clocks>(
    found: &mut Vec<BrokenAssertion>,
    own: &LockSpan,
    kind: Locking,
    other: &LockSpan,
    ranks: &[RankCalls],
    clocks: &C,
) -> Result<(), Memory>
    requires own { IsLockAskable (points_of (lens_of ranks.now)) own.now }
    requires kind { locking_at (calls_of ranks.now) own.now ≡ Some kind }
    requires says { kind.nocheck ≡ true }
    requires other { IsLockAskable (points_of (lens_of ranks.now)) other.now }
    requires clocks { (links : Links) × C.are_of clocks.now (points_of (lens_of ranks.now)) links }
    ensures { OnOk result ((links : Links) → C.are_of clocks.now (points_of (lens_of ranks.now)) links → HasMore (IsLockedBeside links (calls_of ranks.now) own.now other.now) found.old.items found.new.items) }
{
    if are_at_once(own, other, clocks) && excludes(kind, other, ranks) {
        found.push(BrokenAssertion {
            reason: AssertionReason::NocheckLock,
            rank: own.rank,
            line: own.line,
            other: (other.rank, other.line),
        })?;
    }
    Ok(())
}

/// Whether one of two lock epochs keeps all others away, by how the first locks.
fn excludes(kind: Locking, other: &LockSpan, ranks: &[RankCalls]) -> bool
    ensures { IsTrue result ↔ ((found : Locking) × (locking_at (calls_of ranks.now) other.now ≡ Some found) × ((kind.exclusive || found.exclusive) ≡ true)) }
{
    match locking_of(other, ranks) {
        Some(found) => kind.exclusive || found.exclusive,
        None => false,
    }
}

/// Whether two lock epochs may be held at once.
fn are_at_once<C: Clocks>(own: &LockSpan, other: &LockSpan, clocks: &C) -> bool
    requires { (points : List ℕ) × (links : Links) × C.are_of clocks.now points links × IsLockAskable points own.now × IsLockAskable points other.now }
    ensures { (points : List ℕ) (links : Links) → C.are_of clocks.now points links → IsLockAskable points own.now → IsLockAskable points other.now → IsTrue result ↔ MayBeHeldAtOnce links own.now other.now }
{
    if own.window != other.window
        || own.rank == other.rank
        || !have_target(own.target, other.target)
    {
        return false;
    }
    if is_unlocked_first(own, other, clocks) {
        return false;
    }
    !is_unlocked_first(other, own, clocks)
}

/// Whether two lock epochs have a target in common.
fn have_target(own: Option<Rank>, other: Option<Rank>) -> bool
    ensures { IsTrue result ↔ HaveTarget own other }
{
    match (own, other) {
        (Some(own), Some(other)) => own == other,
        (Some(_), None) => true,
        (None, _) => true,
    }
}

/// Whether a rank has returned from the unlock of its epoch when another one enters its lock.
fn is_unlocked_first<C: Clocks>(first: &LockSpan, second: &LockSpan, clocks: &C) -> bool
    requires { (points : List ℕ) × (links : Links) × C.are_of clocks.now points links × IsLockAskable points first.now × IsLockAskable points second.now }
    ensures { (points : List ℕ) (links : Links) → C.are_of clocks.now points links → IsLockAskable points first.now → IsLockAskable points second.now → IsTrue result ↔ IsUnlockedFirst links first.now second.now }
{
    match first.close {
        Some(close) => clocks.leq(
            return_from(first.rank, close),
            entry_of(second.rank, second.opener),
        ),
        None => false,
    }
}

/// How the call locks that opens a lock epoch, where it says `nocheck`.
fn nocheck_of(lock: &LockSpan, ranks: &[RankCalls]) -> Option<Locking>
    ensures { (kind : Locking) → (result ≡ Some kind) ↔ ((locking_at (calls_of ranks.now) lock.now ≡ Some kind) × (kind.nocheck ≡ true)) }
{
    match locking_of(lock, ranks) {
        Some(kind) => { if kind.nocheck { Some(kind) } else { None } }
        None => None,
    }
}

/// How the call locks that opens a lock epoch.
fn locking_of(lock: &LockSpan, ranks: &[RankCalls]) -> Option<Locking>
    ensures { result ≡ locking_at (calls_of ranks.now) lock.now }
{
    match ranks.get(lock.rank.0 as usize) {
        Some(own) => locking_in(own.calls(), lock, ranks),
        None => None,
    }
}

/// The same of a rank with these calls.
fn locking_in(calls: &CallList, lock: &LockSpan, ranks: &[RankCalls]) -> Option<Locking>
    requires { calls_of ranks.now lock.now.rank.0 ≡ calls.now.calls }
    ensures { result ≡ locking_at (calls_of ranks.now) lock.now }
{
    if lock.opener as usize >= calls.len() {
        return None;
    }
    kind_of(calls.get(lock.opener as usize).what)
}

/// How a call locks, if it does.
fn kind_of(what: WhatRef<'_>) -> Option<Locking>
    ensures { result ≡ kind_of (what_of what.entry) }
{
    match what {
        WhatRef::Epoch(
            EpochCall::Lock {
                kind,
                assertions,
                ..
            },
        ) => Some(Locking {
            exclusive: is_exclusive(*kind),
            nocheck: assertions.nocheck,
        }),
        WhatRef::Epoch(EpochCall::LockAll { assertions, .. }) => Some(Locking {
            exclusive: false,
            nocheck: assertions.nocheck,
        }),
        _ => None,
    }
}

/// Whether a lock keeps all others away.
fn is_exclusive(kind: LockKind) -> bool
    ensures { result ≡ is_exclusive kind }
{
    match kind {
        LockKind::Exclusive => true,
        LockKind::Shared => false,
    }
}
