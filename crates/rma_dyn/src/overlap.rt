//! The first region that an attach meets, by a search.
ghost use Rattle.std.specs.Prelude.{◌≡◌, ◌+◌, ◌-◌, ◌<◌, ◌≤◌, ◌^◌, ◌↔◌, ℕ, All, Contains, IfOk, IsTrue, Some, length, slice_get};
ghost use Rattle.rma_dyn.specs.declared.change.Change.{Change};
ghost use Rattle.rma_dyn.specs.Region.{IsAtSame, IsBeside, Overlaps};
ghost use Rattle.rma_dyn.specs.inside.Overlap.{AreLasts, IsFirst, IsGoneBy, earlier_of};
ghost use Rattle.rma_dyn.specs.inside.Sorted.{AreInSpace, AreOnce, AreReaches, IsInSpace, IsUpTo, Rise, end_of};

use crate::change::Change;
use crate::live::{is_at_same, is_live};
use crate::search::next_behind;
use crate::sorted::{behind_of, detach_of, end_of};
use rma_base::Memory;
use rma_rules::Owner;
use std::alloc::Global;

/// For each index the last call at which a region is live that begins at its address, by an attach that stands there or before.
///
/// # Errors
///
/// `Memory` where there is none left.
pub(crate) fn lasts_of(alloc: Global, list: &[Change]) -> Result<Vec<u32>, Memory>
    requires rise { Rise list.now }
    requires once { AreOnce list.now }
    requires small { All (λ c. c.call < 2 ^ 31) list.now }
    ensures { IfOk result (λ lasts. AreLasts list.now lasts.items) }
{
    let mut lasts = Vec::new(alloc);
    for i in 0..list.len() {
        let last = next_last(list, lasts.as_slice(), i);
        lasts.push(last)?;
    }
    Ok(lasts)
}

/// The last call at an index, where those at the indices before are known.
fn next_last(list: &[Change], lasts: &[u32], i: usize) -> u32
    requires rise { Rise list.now }
    requires once { AreOnce list.now }
    requires small { All (λ c. c.call < 2 ^ 31) list.now }
    requires index { i < length list.now }
    requires known { i ≡ length lasts.now }
    ensures own { (a : Change) → slice_get list.now i ≡ Some a → IsGoneBy list.now a result }
    ensures before { (a b : Change) (last : ℕ) → slice_get list.now i ≡ Some a → slice_get list.now (i - 1) ≡ Some b → slice_get lasts.now (i - 1) ≡ Some last → IsAtSame b a → 0 < i → last ≤ result }
{
    let change = &list[i];
    let last = last_of(list, i, change);
    if i == 0 {
        return last;
    }
    if is_at_same(&list[i - 1], change) {
        last.max(lasts[i - 1])
    } else {
        last
    }
}

/// The last call at which the region of the attach at an index is live.
fn last_of(list: &[Change], index: usize, own: &Change) -> u32
    requires rise { Rise list.now }
    requires once { AreOnce list.now }
    requires place { slice_get list.now index ≡ Some own.now }
    requires small { own.now.call < 2 ^ 31 }
    ensures { IsGoneBy list.now own.now result }
{
    match detach_of(list, index, own) {
        Some(detach) => detach.call,
        None => u32::MAX,
    }
}

/// The first of the regions that an attach of so many bytes meets, by its call.
pub(crate) fn first_overlap(
    list: &[Change],
    reaches: &[u64],
    lasts: &[u32],
    attach: &Change,
    size: u64,
) -> Option<Change>
    requires rise { Rise list.now }
    requires once { AreOnce list.now }
    requires in_space { AreInSpace list.now }
    requires small { All (λ c. c.call < 2 ^ 31) list.now }
    requires reaches { AreReaches list.now reaches.now }
    requires lasts { AreLasts list.now lasts.now }
    requires attaches { attach.now.size ≡ Some size }
    requires own_space { IsInSpace attach.now }
    requires own_small { attach.now.call < 2 ^ 31 }
    ensures { IsFirst list.now attach.now 0 result }
{
    let owner = Owner {
        rank: attach.rank,
        window: attach.window,
    };
    let mut first = None;
    let mut behind = behind_of(list, owner, attach.address + size, 0);
    'back: while 0 < behind {
        let index = behind - 1;
        behind = next_overlap(list, reaches, lasts, attach, owner, index);
        first = with_element(first, list, index, attach, size);
    }
    first
}

/// The index behind the next one that an attach may meet, below an index: none between is met.
fn next_overlap(
    list: &[Change],
    reaches: &[u64],
    lasts: &[u32],
    attach: &Change,
    owner: Owner,
    index: usize,
) -> usize
    requires rise { Rise list.now }
    requires reaches { AreReaches list.now reaches.now }
    requires lasts { AreLasts list.now lasts.now }
    requires index { index < length list.now }
    requires up_to { (own : Change) → slice_get list.now index ≡ Some own → IsUpTo owner own }
    requires rank { owner.rank ≡ attach.now.rank }
    requires window { owner.window ≡ attach.now.window }
    requires own_small { attach.now.call < 2 ^ 31 }
    requires own_space { attach.now.address < 2 ^ 63 }
    ensures bound { result ≤ index }
    ensures none { (k : ℕ) (x : Change) → result ≤ k → k < index → slice_get list.now k ≡ Some x → ¬ Overlaps list.now attach.now x }
{
    if lasts[index] < attach.call {
        start_of(list, index)
    } else {
        next_behind(list, reaches, owner, attach.address + 1, attach.call, index)
    }
}

/// The index of the first that stands at the address of the one at an index, or one before that.
fn start_of(list: &[Change], index: usize) -> usize
    requires rise { Rise list.now }
    requires index { index < length list.now }
    ensures bound { result ≤ index }
    ensures same { (k : ℕ) (x own : Change) → result ≤ k → k ≤ index → slice_get list.now k ≡ Some x → slice_get list.now index ≡ Some own → IsAtSame x own }
{
    let change = &list[index];
    let owner = Owner {
        rank: change.rank,
        window: change.window,
    };
    behind_of(list, owner, change.address, 0)
}

/// What is known with one more element of the list, the one at an index.
fn with_element(
    first: Option<Change>,
    list: &[Change],
    index: usize,
    attach: &Change,
    size: u64,
) -> Option<Change>
    requires rise { Rise list.now }
    requires once { AreOnce list.now }
    requires in_space { AreInSpace list.now }
    requires small { All (λ c. c.call < 2 ^ 31) list.now }
    requires attaches { attach.now.size ≡ Some size }
    requires own_space { IsInSpace attach.now }
    requires index { index < length list.now }
    ensures { IsFirst list.now attach.now (index + 1) first → IsFirst list.now attach.now index result }
{
    let other = &list[index];
    if overlaps(list, index, other, attach, size) {
        Some(earlier_of(first, *other))
    } else {
        first
    }
}

/// The one of two that comes first by its call, if there are two.
fn earlier_of(first: Option<Change>, other: Change) -> Change
    ensures { result ≡ earlier_of first other }
{
    match first {
        Some(first) => {
            if first.call < other.call {
                first
            } else {
                other
            }
        }
        None => other,
    }
}

/// Whether an attach of so many bytes meets the region of another, the one at an index, which is live then.
fn overlaps(list: &[Change], index: usize, other: &Change, attach: &Change, size: u64) -> bool
    requires rise { Rise list.now }
    requires once { AreOnce list.now }
    requires place { slice_get list.now index ≡ Some other.now }
    requires in_space { IsInSpace other.now }
    requires small { other.now.call < 2 ^ 31 }
    requires attaches { attach.now.size ≡ Some size }
    requires own_space { IsInSpace attach.now }
    ensures { IsTrue result ↔ Overlaps list.now attach.now other.now }
{
    if !is_beside(other, attach) {
        return false;
    }
    if end_of(other) <= attach.address {
        return false;
    }
    if attach.address + size <= other.address {
        return false;
    }
    is_live(list, index, other, attach.call)
}

/// Whether two are of one rank and window.
fn is_beside(own: &Change, other: &Change) -> bool
    ensures { IsTrue result ↔ IsBeside own.now other.now }
{
    own.rank == other.rank && own.window == other.window
}
