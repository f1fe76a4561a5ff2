//! The attaches that hold all bytes of an access, by a search.
ghost use Rattle.std.specs.Prelude.{◌≡◌, ◌+◌, ◌≤◌, ◌<◌, ◌^◌, ◌↔◌, ℕ, All, IsTrue, Some, length, slice_get};
ghost use Rattle.rma_dyn.specs.declared.change.Change.{Change};
ghost use Rattle.rma_dyn.specs.inside.Sorted.{AreInSpace, AreOnce, AreReaches, IsInSpace, IsUpTo, Rise, end_of};
ghost use Rattle.rma_dyn.specs.Region.{region};
ghost use Rattle.rma_dyn.specs.inside.Search.{Holds, IsCover, later};
ghost use Rattle.rma_rules.specs.Access.{Access};

use crate::bounds::bounds_of;
use crate::change::Change;
use crate::sorted::{behind_of, detach_of, is_owned};
use rma_bytes::Run;
use rma_rules::{Access, Owner};

/// What is known of the attaches that hold all bytes of an access and come before some call of their rank.
#[derive(Clone, Copy, Debug)]
pub(crate) enum Cover {
    /// There is none.
    Nothing,
    /// One is not detached before some call of its rank.
    Kept,
    /// Each is detached before that: the last one, and its detach.
    Gone(Change, Change),
}

/// Those of an access among all of a run in their order. The attaches come before the call of number `bound` of their rank, and the
/// detaches are asked to come before that of number `freed`.
pub(crate) fn cover_of(
    list: &[Change],
    reaches: &[u64],
    access: &Access<'_>,
    owner: Owner,
    bound: u32,
    freed: u32,
) -> Cover
    requires rise { Rise list.now }
    requires once { AreOnce list.now }
    requires in_space { AreInSpace list.now }
    requires small { All (λ c. c.call < 2 ^ 31) list.now }
    requires reaches { AreReaches list.now reaches.now }
    requires window { access.now.window ≡ Some owner.window }
    requires memory { access.now.memory ≡ owner.rank }
    ensures { IsCover list.now access.now bound freed 0 result }
{
    let (low, high) = bounds_of(&access.bytes);
    let mut cover = Cover::Nothing;
    let mut behind = behind_of(list, owner, low, bound);
    'back: while 0 < behind {
        let index = behind - 1;
        behind = next_behind(list, reaches, owner, high, bound, index);
        cover = with_element(cover, list, index, access, bound, freed);
        if is_kept(cover) {
            return cover;
        }
    }
    cover
}

/// Whether an attach is not detached.
fn is_kept(cover: Cover) -> bool
    ensures { IsTrue result → cover ≡ Cover.Kept }
{
    matches!(cover, Cover::Kept)
}

/// The index behind the next one that may hold an access, below an index: none does between. None ends at `high` or behind it where the
/// reach says so, and those from the call of number `bound` on are passed over.
pub(crate) fn next_behind(
    list: &[Change],
    reaches: &[u64],
    owner: Owner,
    high: u64,
    bound: u32,
    index: usize,
) -> usize
    requires rise { Rise list.now }
    requires reaches { AreReaches list.now reaches.now }
    requires index { index < length list.now }
    requires up_to { (own : Change) → slice_get list.now index ≡ Some own → IsUpTo owner own }
    ensures bound { result ≤ index }
    ensures none { (k : ℕ) (g : Change) → result ≤ k → k < index → slice_get list.now k ≡ Some g → g.rank ≡ owner.rank → g.window ≡ owner.window → g.call < bound → ¬ (high ≤ end_of g) }
{
    let change = &list[index];
    if !is_owned(change, owner) || reaches[index] < high {
        return 0;
    }
    if bound <= change.call {
        behind_of(list, owner, change.address, bound)
    } else {
        index
    }
}

/// Whether an attach before the call of a number of its rank gives all bytes of an access.
fn holds(change: &Change, access: &Access<'_>, bound: u32) -> bool
    requires { IsInSpace change.now }
    ensures { IsTrue result ↔ Holds access.now bound change.now }
{
    if access.memory != change.rank || access.window != Some(change.window) {
        return false;
    }
    match change.size {
        Some(size) => change.call < bound && access.bytes.inside(region(change.address, size)),
        None => false,
    }
}

/// The bytes of so many from an address on.
fn region(address: u64, size: u64) -> Run
    requires { address < 2 ^ 63 }
    ensures { result ≡ region address size }
{
    Run {
        start: address as i64,
        len: size,
    }
}

/// What is known with one more element of the list, the one at an index.
fn with_element(
    cover: Cover,
    list: &[Change],
    index: usize,
    access: &Access<'_>,
    bound: u32,
    freed: u32,
) -> Cover
    requires rise { Rise list.now }
    requires once { AreOnce list.now }
    requires in_space { AreInSpace list.now }
    requires small { All (λ c. c.call < 2 ^ 31) list.now }
    requires index { index < length list.now }
    ensures { IsCover list.now access.now bound freed (index + 1) cover → IsCover list.now access.now bound freed index result }
{
    let attach = &list[index];
    if holds(attach, access, bound) {
        with_attach(cover, list, index, attach, freed)
    } else {
        cover
    }
}

/// What is known with one more attach that holds the access, the one at an index.
fn with_attach(cover: Cover, list: &[Change], index: usize, attach: &Change, freed: u32) -> Cover
    requires rise { Rise list.now }
    requires once { AreOnce list.now }
    requires place { slice_get list.now index ≡ Some attach.now }
    requires small { attach.now.call < 2 ^ 31 }
    ensures { (a : Access) (bound : ℕ) → Holds a bound attach.now → IsCover list.now a bound freed (index + 1) cover → IsCover list.now a bound freed index result }
{
    match detach_of(list, index, attach) {
        Some(detach) => {
            if detach.call < freed {
                later(cover, *attach, detach)
            } else {
                Cover::Kept
            }
        }
        None => Cover::Kept,
    }
}

/// What is known with one more attach whose detach comes before the call that is asked for.
fn later(cover: Cover, attach: Change, detach: Change) -> Cover
    ensures { result ≡ later cover attach detach }
{
    match cover {
        Cover::Nothing => Cover::Gone(attach, detach),
        Cover::Kept => Cover::Kept,
        Cover::Gone(last, _) => {
            if last.call < attach.call {
                Cover::Gone(attach, detach)
            } else {
                cover
            }
        }
    }
}
