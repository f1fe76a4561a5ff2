//! Attaches and detaches in their order: by rank, window, address and call.
ghost use Rattle.std.specs.Prelude.{◌≡◌, ◌+◌, ◌≤◌, ◌<◌, ◌-◌, ◌^◌, ◌↔◌, ℕ, IfOk, Some, false, true, length, slice_get};
ghost use Rattle.std.specs.List.Sorted.{IsPermutation};
ghost use Rattle.rma_dyn.specs.declared.change.Change.{Change};
ghost use Rattle.rma_dyn.specs.Region.{IsBeside, IsDetachOf};
ghost use Rattle.rma_dyn.specs.inside.Sorted.{AreInSpace, AreOnce, AreReaches, IsInSpace, Rise, end_of, is_below, is_owned, owner_of, some_detach};

use crate::change::Change;
use rma_base::Memory;
use rma_rules::Owner;
use std::alloc::Global;

/// Sorts attaches and detaches.
pub(crate) fn sort(list: &mut Vec<Change>)
    ensures permutation { IsPermutation list.old.items list.new.items }
    ensures rise { Rise list.new.items }
{
    list.sort_unstable_by_key(|own| (own.rank.0, own.window.0, own.address, own.call));
}

/// Whether one is of a rank and a window.
pub(crate) fn is_owned(own: &Change, owner: Owner) -> bool
    ensures { result ≡ is_owned owner own.now }
{
    own.rank == owner.rank && own.window == owner.window
}

/// The index behind those of a rank and a window that stand below an address, or at it before the call of a number.
pub(crate) fn behind_of(list: &[Change], owner: Owner, address: u64, call: u32) -> usize
    requires { Rise list.now }
    ensures bound { result ≤ length list.now }
    ensures before { (k : ℕ) (own : Change) → k < result → slice_get list.now k ≡ Some own → is_below owner address call own ≡ true }
    ensures after { (k : ℕ) (own : Change) → result ≤ k → slice_get list.now k ≡ Some own → is_below owner address call own ≡ false }
{
    list.partition_point(|own| is_below(own, owner, address, call))
}

/// Whether one comes before those of a rank and a window at an address and from the call of a number on.
fn is_below(own: &Change, owner: Owner, address: u64, call: u32) -> bool
    ensures { result ≡ is_below owner address call own.now }
{
    if own.rank.0 != owner.rank.0 {
        return own.rank.0 < owner.rank.0;
    }
    if own.window.0 != owner.window.0 {
        return own.window.0 < owner.window.0;
    }
    own.address < address || (own.address == address && own.call < call)
}

/// The detach of the attach at an index, if it has one.
pub(crate) fn detach_of(list: &[Change], index: usize, attach: &Change) -> Option<Change>
    requires rise { Rise list.now }
    requires once { AreOnce list.now }
    requires place { slice_get list.now index ≡ Some attach.now }
    requires small { attach.now.call < 2 ^ 31 }
    ensures { (detach : Change) → (result ≡ Some detach) ↔ IsDetachOf list.now attach.now detach }
{
    let place = behind_attach(list, index, attach);
    match list.get(place) {
        Some(next) => some_detach(*next, attach),
        None => None,
    }
}

/// The index behind the attach at an index, and behind all others of its rank, window, address and call. A list that has each call once
/// has no others; that is asked here, and not a premise.
fn behind_attach(list: &[Change], index: usize, attach: &Change) -> usize
    requires rise { Rise list.now }
    requires place { slice_get list.now index ≡ Some attach.now }
    requires small { attach.now.call < 2 ^ 31 }
    ensures before { (k : ℕ) (own : Change) → k < result → slice_get list.now k ≡ Some own → is_below (owner_of attach.now) attach.now.address (attach.now.call + 1) own ≡ true }
    ensures after { (k : ℕ) (own : Change) → result ≤ k → slice_get list.now k ≡ Some own → is_below (owner_of attach.now) attach.now.address (attach.now.call + 1) own ≡ false }
{
    let owner = Owner {
        rank: attach.rank,
        window: attach.window,
    };
    let next = index + 1;
    match list.get(next) {
        Some(own) => {
            if is_below(own, owner, attach.address, attach.call + 1) {
                behind_of(list, owner, attach.address, attach.call + 1)
            } else {
                next
            }
        }
        None => next,
    }
}

/// A detach, if it is one at the address of an attach.
fn some_detach(next: Change, attach: &Change) -> Option<Change>
    ensures { result ≡ some_detach attach.now next }
{
    let is_beside = next.rank == attach.rank && next.window == attach.window;
    if is_beside && next.address == attach.address && next.size.is_none() {
        Some(next)
    } else {
        None
    }
}

/// For each index the highest address behind an attach of the same rank and window that stands there or before.
///
/// # Errors
///
/// `Memory` where there is none left.
pub(crate) fn reaches_of(alloc: Global, list: &[Change]) -> Result<Vec<u64>, Memory>
    requires rise { Rise list.now }
    requires in_space { AreInSpace list.now }
    ensures { IfOk result (λ reaches. AreReaches list.now reaches.items) }
{
    let mut reaches = Vec::new(alloc);
    for i in 0..list.len() {
        let reach = next_reach(list, reaches.as_slice(), i);
        reaches.push(reach)?;
    }
    Ok(reaches)
}

/// The highest address at an index, where the addresses at those before are known.
fn next_reach(list: &[Change], reaches: &[u64], i: usize) -> u64
    requires rise { Rise list.now }
    requires in_space { AreInSpace list.now }
    requires index { i < length list.now }
    requires known { i ≡ length reaches.now }
    ensures own { (a : Change) → slice_get list.now i ≡ Some a → end_of a ≤ result }
    ensures before { (a b : Change) (reach : ℕ) → slice_get list.now i ≡ Some a → slice_get list.now (i - 1) ≡ Some b → slice_get reaches.now (i - 1) ≡ Some reach → IsBeside b a → 0 < i → reach ≤ result }
{
    let change = &list[i];
    let end = end_of(change);
    if i == 0 {
        return end;
    }
    let owner = Owner {
        rank: change.rank,
        window: change.window,
    };
    if is_owned(&list[i - 1], owner) {
        end.max(reaches[i - 1])
    } else {
        end
    }
}

/// The address behind the bytes that an attach gives; 0 for a detach.
pub(crate) fn end_of(change: &Change) -> u64
    requires { IsInSpace change.now }
    ensures { result ≡ end_of change.now }
{
    match change.size {
        Some(size) => change.address + size,
        None => 0,
    }
}
