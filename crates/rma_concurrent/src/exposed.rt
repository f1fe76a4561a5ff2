//! Lock epochs that may be open while their target is exposed.
ghost use Rattle.std.specs.Prelude.{◌≡◌, ◌<◌, ◌≤◌, ◌^◌, ◌↔◌, ℕ, List, All, IsTrue, OnOk, Some, length, slice_get};
ghost use Rattle.rma_link.specs.declared.links.Links.{Links};
ghost use Rattle.rma_link.specs.Point.{entry, return_of};
ghost use Rattle.rma_rules.specs.declared.span.Exposure.{Exposure};
ghost use Rattle.rma_concurrent.specs.Concurrent.{IsAtTarget, IsExposedBy, IsExposureAskable, IsLockAskable, IsOverBefore, IsUnlockedBefore, MayBeOpenAtOnce, over_at};
ghost use Rattle.rma_concurrent.specs.inside.Places.{AreBeside, ClosesRise, HasMore, IsFrom, IsOf, Rise};

use crate::exposures::{closes_rise, end_of_group, range_of};
use rma_base::{Memory, Point, Rank};
use rma_clock::Clocks;
use rma_finding::ExposedLock;
use rma_rules::{Exposure, ExposureKind, LockSpan};
use rma_window::Windows;

/// Adds the reports of some lock epochs, by the exposures in their order.
///
/// # Errors
///
/// `Memory`, and then nothing is said of what is listed.
pub(crate) fn add_locks<C: Clocks>(
    found: &mut Vec<ExposedLock>,
    locks: &[LockSpan],
    list: &[Exposure],
    windows: &Windows,
    clocks: &C,
) -> Result<(), Memory>
    requires rise { Rise list.now }
    requires windows { All (λ lock. lock.window.0 < length windows.now) locks.now }
    requires clocks { (points : List ℕ) × (links : Links) × C.are_of clocks.now points links × All (IsLockAskable points) locks.now × All (IsExposureAskable points) list.now }
    ensures { OnOk result ((points : List ℕ) (links : Links) → C.are_of clocks.now points links → All (IsLockAskable points) locks.now → All (IsExposureAskable points) list.now
        → HasMore (IsOf (λ lock. IsOf (IsExposedBy links windows.now lock) list.now) locks.now) found.old.items found.new.items) }
{
    let rise = closes_rise(list);
    for lock in locks {
        add_lock(found, lock, list, rise, windows, clocks)?;
    }
    Ok(())
}

/// Adds those of one lock epoch: of each of its targets the exposures that stand side by side are asked. `rise` says that of any two of
/// these the first closes no later.
fn add_lock<C: Clocks>(
    found: &mut Vec<ExposedLock>,
    lock: &LockSpan,
    list: &[Exposure],
    rise: bool,
    windows: &Windows,
    clocks: &C,
) -> Result<(), Memory>
    requires rise { Rise list.now }
    requires closes { IsTrue rise → ClosesRise list.now }
    requires window { lock.now.window.0 < length windows.now }
    requires clocks { (points : List ℕ) × (links : Links) × C.are_of clocks.now points links × IsLockAskable points lock.now × All (IsExposureAskable points) list.now }
    ensures { OnOk result ((points : List ℕ) (links : Links) → C.are_of clocks.now points links → IsLockAskable points lock.now → All (IsExposureAskable points) list.now
        → HasMore (IsOf (IsExposedBy links windows.now lock.now) list.now) found.old.items found.new.items) }
{
    let (start, end) = range_of(list, lock.window, lock.target);
    let mut first = start;
    'groups: while first < end {
        let behind = end_of_group(list, first);
        add_group(found, lock, list, rise, first, behind, windows, clocks)?;
        first = behind;
    }
    Ok(())
}

/// Adds those of one lock epoch and the exposures from one index up to another, which stand side by side. Where those begin that open
/// after the unlock is found by a binary search; of the others the last ones are asked. Where the calls that close them rise too, this
/// ends at the first that is over before the lock: so are all before it.
fn add_group<C: Clocks>(
    found: &mut Vec<ExposedLock>,
    lock: &LockSpan,
    list: &[Exposure],
    rise: bool,
    first: usize,
    behind: usize,
    windows: &Windows,
    clocks: &C,
) -> Result<(), Memory>
    requires rise { Rise list.now }
    requires closes { IsTrue rise → ClosesRise list.now }
    requires beside { AreBeside list.now first behind }
    requires bounds { (first ≤ behind) × (behind ≤ length list.now) }
    requires window { lock.now.window.0 < length windows.now }
    requires clocks { (points : List ℕ) × (links : Links) × C.are_of clocks.now points links × IsLockAskable points lock.now × All (IsExposureAskable points) list.now }
    ensures { OnOk result ((points : List ℕ) (links : Links) → C.are_of clocks.now points links → IsLockAskable points lock.now → All (IsExposureAskable points) list.now
        → HasMore (IsFrom (IsExposedBy links windows.now lock.now) list.now first behind) found.old.items found.new.items) }
{
    let mut last = begun_before_unlock(lock, list, first, behind, clocks);
    'back: while first < last {
        let own = &list[last - 1];
        if rise && is_over_before(lock, own, clocks) {
            return Ok(());
        }
        add_pair(found, lock, own, windows, clocks)?;
        last -= 1;
    }
    Ok(())
}

/// The index from which on exposures that stand side by side open after the unlock, by a binary search.
fn begun_before_unlock<C: Clocks>(
    lock: &LockSpan,
    list: &[Exposure],
    first: usize,
    behind: usize,
    clocks: &C,
) -> usize
    requires rise { Rise list.now }
    requires beside { AreBeside list.now first behind }
    requires bounds { (first ≤ behind) × (behind ≤ length list.now) }
    requires clocks { (points : List ℕ) × (links : Links) × C.are_of clocks.now points links × IsLockAskable points lock.now × All (IsExposureAskable points) list.now }
    ensures bounds { (first ≤ result) × (result ≤ behind) }
    ensures after { (points : List ℕ) (links : Links) → C.are_of clocks.now points links → IsLockAskable points lock.now → All (IsExposureAskable points) list.now
        → (k : ℕ) (own : Exposure) → result ≤ k → k < behind → slice_get list.now k ≡ Some own → IsUnlockedBefore links lock.now own }
{
    let mut low = first;
    let mut high = behind;
    'search: while low < high {
        let middle = low + (high - low) / 2;
        if is_unlocked_before(lock, &list[middle], clocks) {
            high = middle;
        } else {
            low = middle + 1;
        }
    }
    high
}

/// Adds the report of a lock epoch and an exposure, where they may be open at once.
fn add_pair<C: Clocks>(
    found: &mut Vec<ExposedLock>,
    lock: &LockSpan,
    exposure: &Exposure,
    windows: &Windows,
    clocks: &C,
) -> Result<(), Memory>
    requires window { lock.now.window.0 < length windows.now }
    requires clocks { (points : List ℕ) × (links : Links) × C.are_of clocks.now points links × IsLockAskable points lock.now × IsExposureAskable points exposure.now }
    ensures { OnOk result ((points : List ℕ) (links : Links) → C.are_of clocks.now points links → IsLockAskable points lock.now → IsExposureAskable points exposure.now
        → HasMore (IsExposedBy links windows.now lock.now exposure.now) found.old.items found.new.items) }
{
    if may_be_open_at_once(lock, exposure, clocks) {
        add_report(found, lock, exposure, windows)
    } else {
        Ok(())
    }
}

/// Adds the report of a lock epoch and an exposure.
fn add_report(
    found: &mut Vec<ExposedLock>,
    lock: &LockSpan,
    exposure: &Exposure,
    windows: &Windows,
) -> Result<(), Memory>
    requires { lock.now.window.0 < length windows.now }
    ensures { OnOk result ((links : Links) → MayBeOpenAtOnce links lock.now exposure.now → HasMore (IsExposedBy links windows.now lock.now exposure.now) found.old.items found.new.items) }
{
    let report = ExposedLock {
        window: windows.name(lock.window).copy()?,
        rank: lock.rank,
        lock: lock.line,
        target: exposure.target,
        opened: exposure.opened,
    };
    found.push(report)?;
    Ok(())
}

/// Whether a lock epoch and an exposure may be open at one target at once.
fn may_be_open_at_once<C: Clocks>(lock: &LockSpan, exposure: &Exposure, clocks: &C) -> bool
    requires { (points : List ℕ) × (links : Links) × C.are_of clocks.now points links × IsLockAskable points lock.now × IsExposureAskable points exposure.now }
    ensures { (points : List ℕ) (links : Links) → C.are_of clocks.now points links → IsLockAskable points lock.now → IsExposureAskable points exposure.now → IsTrue result ↔ MayBeOpenAtOnce links lock.now exposure.now }
{
    if !is_at_target(lock, exposure) || is_over_before(lock, exposure, clocks) {
        return false;
    }
    !is_unlocked_before(lock, exposure, clocks)
}

/// Whether they are of one window, and at one target.
fn is_at_target(lock: &LockSpan, exposure: &Exposure) -> bool
    ensures { IsTrue result ↔ ((exposure.now.window ≡ lock.now.window) × IsAtTarget lock.now.target exposure.now.target) }
{
    exposure.window == lock.window && is_target(lock.target, exposure.target)
}

/// Whether a lock epoch of this target is at a rank.
fn is_target(target: Option<Rank>, rank: Rank) -> bool
    ensures { IsTrue result ↔ IsAtTarget target rank }
{
    match target {
        Some(locked) => locked == rank,
        None => true,
    }
}

/// Whether the exposure is over when the rank enters its lock.
fn is_over_before<C: Clocks>(lock: &LockSpan, exposure: &Exposure, clocks: &C) -> bool
    requires { (points : List ℕ) × (links : Links) × C.are_of clocks.now points links × IsLockAskable points lock.now × IsExposureAskable points exposure.now }
    ensures { (points : List ℕ) (links : Links) → C.are_of clocks.now points links → IsLockAskable points lock.now → IsExposureAskable points exposure.now → IsTrue result ↔ IsOverBefore links lock.now exposure.now }
{
    match exposure.close {
        Some(close) => clocks.leq(
            over_at(exposure.kind, exposure.target, close),
            entry_of(lock.rank, lock.opener),
        ),
        None => false,
    }
}

/// Whether the rank has returned from its unlock when the target returns from the call that opens the exposure.
fn is_unlocked_before<C: Clocks>(lock: &LockSpan, exposure: &Exposure, clocks: &C) -> bool
    requires { (points : List ℕ) × (links : Links) × C.are_of clocks.now points links × IsLockAskable points lock.now × IsExposureAskable points exposure.now }
    ensures { (points : List ℕ) (links : Links) → C.are_of clocks.now points links → IsLockAskable points lock.now → IsExposureAskable points exposure.now → IsTrue result ↔ IsUnlockedBefore links lock.now exposure.now }
{
    match lock.close {
        Some(close) => clocks.leq(
            return_from(lock.rank, close),
            return_from(exposure.target, exposure.opener),
        ),
        None => false,
    }
}

/// Where an exposure of a target is over, by the call that closes it.
fn over_at(kind: ExposureKind, target: Rank, close: u32) -> Point
    requires { close < 2 ^ 31 }
    ensures { result ≡ over_at kind target close }
{
    match kind {
        ExposureKind::Posted => return_from(target, close),
        ExposureKind::Fenced => entry_of(target, close),
    }
}

/// Where a rank enters a call.
fn entry_of(rank: Rank, call: u32) -> Point
    requires { call < 2 ^ 31 }
    ensures { result ≡ entry rank call }
{
    Point {
        rank,
        pos: 2 * call,
    }
}

/// Where a rank returns from a call.
fn return_from(rank: Rank, call: u32) -> Point
    requires { call < 2 ^ 31 }
    ensures { result ≡ return_of rank call }
{
    Point {
        rank,
        pos: 2 * call + 1,
    }
}
