//! The lock epochs of a rank on itself.
ghost use Rattle.std.specs.Prelude.{◌≡◌, ◌<◌, ◌≤◌, ℕ, List, Some, length, filter, take, slice_get, slice_index_or, IfOk, MatchOption, OnOk};
ghost use Rattle.std.specs.List.Sorted.{IsNonDecreasingBy};
ghost use Rattle.rma_epoch.specs.declared.epoch.Epoch.{Epoch};
ghost use Rattle.rma_base.specs.declared.rank.Rank.{Rank};
ghost use Rattle.rma_window.specs.Windows.{Window};
ghost use Rattle.rma_cover.specs.Cover.{lasts, own_locks, AreWith, IsFrom, IsLast, StayThere};
ghost use Rattle.rma_cover.specs.declared.own_locks.OwnLock.{OwnLock};
ghost use Rattle.rma_cover.specs.inside.Held.{Represents, all_own, keys_of, lasts_until, opener_of, own_lock};

use crate::key_lists::KeyLists;
use crate::keys::own_key;
use rma_base::{Memory, Rank};
use rma_epoch::Epoch;
use rma_rules::LockKey;
use rma_window::Windows;
use std::alloc::Global;

/// A lock epoch of a rank on itself.
#[derive(Clone, Copy, Debug)]
pub(crate) struct OwnLock {
    /// Its key.
    pub key: LockKey,
    /// The number of the sound call that closes it, where there is one.
    pub close: Option<u32>,
}

/// The lock epochs of a rank on itself, and those that are held as one goes along its calls.
#[derive(Debug, Drop)]
pub struct OwnLocks {
    /// All of them, in the order of their opening.
    all: Vec<OwnLock>,
    /// The index of the first that is not opened yet.
    next: usize,
    /// Those that are held, in that order.
    held: Vec<OwnLock>,
    /// The keys of an access, from one to the next.
    keys: Vec<LockKey>,
}

impl OwnLocks {
    /// Those among these epochs of a rank, which come in the order of their opening, before its first call.
    ///
    /// # Errors
    ///
    /// `Memory` where there is none left.
    pub fn of(
        alloc: Global,
        windows: &Windows,
        rank: Rank,
        epochs: &[Epoch],
    ) -> Result<OwnLocks, Memory>
        requires { IsNonDecreasingBy (λ (epoch : Epoch). epoch.opener) epochs.now }
        ensures { IfOk result (Represents windows.now rank epochs.now 0) }
    {
        Ok(OwnLocks {
            all: own_locks(alloc, windows, rank, epochs)?,
            next: 0,
            held: Vec::new(alloc),
            keys: Vec::new(alloc),
        })
    }

    /// Goes on to the call of a number, which is not before the last one.
    ///
    /// # Errors
    ///
    /// `Memory` where there is none left.
    pub fn go_on(&mut self, number: u32) -> Result<(), Memory>
        ensures { OnOk result ((windows : List Window) (rank : Rank) (epochs : List Epoch) (before : ℕ) → before ≤ number → Represents windows rank epochs before self.old → Represents windows rank epochs number self.new) }
    {
        keep_held(&mut self.held, number);
        self.next = open(&self.all, self.next, number, &mut self.held)?;
        Ok(())
    }

    /// The number of the list of the epochs in which an access of the call lies to which it went on, by the number of the call by
    /// which that is done, if by any. The last list is taken again where it is the same, and else it comes behind the others.
    ///
    /// # Errors
    ///
    /// `Memory` where there is none left.
    pub fn cover(&mut self, done: Option<u32>, lists: &mut KeyLists) -> Result<u32, Memory>
        ensures same { (windows : List Window) (rank : Rank) (epochs : List Epoch) (number : ℕ) → Represents windows rank epochs number self.old → Represents windows rank epochs number self.new }
        ensures list { IfOk result (λ list. (windows : List Window) (rank : Rank) (epochs : List Epoch) (number : ℕ) → IsFrom number done → Represents windows rank epochs number self.old
            → slice_get lists.new list ≡ Some (own_locks windows rank epochs number done)) }
        ensures others { OnOk result (StayThere lists.old lists.new) }
        ensures lists { OnOk result ((windows : List Window) (rank : Rank) (epochs : List Epoch) (number : ℕ) → IsFrom number done → Represents windows rank epochs number self.old
            → AreWith lists.old (own_locks windows rank epochs number done) lists.new) }
    {
        put_keys(&mut self.keys, &self.held, done)?;
        lists.number_of(&self.keys)
    }
}

/// Keeps those that last until the call of a number.
fn keep_held(held: &mut Vec<OwnLock>, number: u32)
    ensures { held.new.items ≡ filter (lasts_until (Some number)) held.old.items }
{
    held.retain(|own| lasts(own.close, Some(number)));
}

/// Adds to those that are held the epochs from an index on that are opened before the call of a number and last until it, and
/// answers the index of the first that is not opened yet.
fn open(all: &[OwnLock], next: usize, number: u32, held: &mut Vec<OwnLock>) -> Result<usize, Memory>
    ensures within { IfOk result (λ end. next ≤ length all.now → (next ≤ end) × (end ≤ length all.now)) }
    ensures held { IfOk result (λ end. held.old.items ≡ filter (lasts_until (Some number)) (take next all.now) → held.new.items ≡ filter (lasts_until (Some number)) (take end all.now)) }
    ensures opened { IfOk result (λ end. (i : ℕ) (d : OwnLock) → next ≤ i → i < end → opener_of (slice_index_or all.now i d) < number) }
    ensures unopened { IfOk result (λ end. (d : OwnLock) → end < length all.now → number ≤ opener_of (slice_index_or all.now end d)) }
{
    let mut end = next;
    'epochs: while end < all.len() {
        let own = all[end];
        if own.key.opener >= number {
            return Ok(end);
        }
        if lasts(own.close, Some(number)) {
            held.push(own)?;
        }
        end += 1;
    }
    Ok(end)
}

/// Puts the keys of the epochs that last until the call by which an access is done.
fn put_keys(keys: &mut Vec<LockKey>, held: &[OwnLock], done: Option<u32>) -> Result<(), Memory>
    ensures { OnOk result (keys.new.items ≡ keys_of (filter (lasts_until done) held.now)) }
{
    keys.clear();
    for own in held {
        if lasts(own.close, done) {
            keys.push(own.key)?;
        }
    }
    Ok(())
}

/// Whether an epoch that is closed by this call, if by any, lasts until the call by which an access is done.
fn lasts(close: Option<u32>, done: Option<u32>) -> bool
    ensures { result ≡ lasts close done }
{
    match (close, done) {
        (None, _) => true,
        (Some(_), None) => false,
        (Some(close), Some(done)) => done <= close,
    }
}

/// A lock epoch of a rank on itself, with the call that closes it.
fn own_lock(windows: &Windows, rank: Rank, epoch: &Epoch) -> Option<OwnLock>
    ensures { result ≡ own_lock windows.now rank epoch.now }
{
    let key = own_key(windows, rank, epoch)?;
    Some(OwnLock {
        key,
        close: epoch.close,
    })
}

/// The lock epochs of a rank on itself among these.
fn own_locks(
    alloc: Global,
    windows: &Windows,
    rank: Rank,
    epochs: &[Epoch],
) -> Result<Vec<OwnLock>, Memory>
    ensures { IfOk result (λ all. all.items ≡ all_own windows.now rank epochs.now) }
{
    Ok(
        epochs
            .iter()
            .filter_map(|epoch| own_lock(windows, rank, epoch))
            .collect(alloc)?,
    )
}
