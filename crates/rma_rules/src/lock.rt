//! Locks that keep accesses apart (MPI 4.0, "One-Sided Communications").
ghost use Rattle.std.specs.Prelude.{◌↔◌, IsTrue, Contains};
ghost use Rattle.rma_rules.specs.declared.lock.LockKey.{LockKey};
ghost use Rattle.rma_rules.specs.Lock.{AreExclusive, Separated};

use crate::access::Access;
use rma_base::Rank;
use rma_window::WindowId;

/// A lock epoch: that of a rank at a target, by the call that opens it.
#[derive(Clone, Copy, Debug, PartialEq, Eq)]
pub struct LockKey {
    /// The window.
    pub window: WindowId,
    /// The target that is locked.
    pub target: Rank,
    /// The rank that locks it.
    pub rank: Rank,
    /// The number of the call that opens the epoch, among the calls of that rank from 0.
    pub opener: u32,
    /// Whether no other rank may lock the target meanwhile.
    pub exclusive: bool,
}

/// Whether locks keep the two accesses apart: they are made in two lock epochs of one target, one of which is exclusive.
pub fn separated(a: &Access<'_>, b: &Access<'_>) -> bool
    ensures { IsTrue result ↔ Separated a.now b.now }
{
    any_exclude(a.locks, b.locks)
}

/// Whether one of some lock epochs and one of others are never open at once.
fn any_exclude(keys: &[LockKey], others: &[LockKey]) -> bool
    ensures { IsTrue result ↔ ((key : LockKey) × (other : LockKey) × Contains keys.now key × Contains others.now other × AreExclusive key other) }
{
    for key in keys {
        if excludes_any(*key, others) {
            return true;
        }
    }
    false
}

/// Whether a lock epoch and one of the others are never open at once.
fn excludes_any(key: LockKey, others: &[LockKey]) -> bool
    ensures { IsTrue result ↔ ((other : LockKey) × Contains others.now other × AreExclusive key other) }
{
    for other in others {
        if are_exclusive(key, *other) {
            return true;
        }
    }
    false
}

/// Whether two lock epochs are never open at once.
fn are_exclusive(key: LockKey, other: LockKey) -> bool
    ensures { IsTrue result ↔ AreExclusive key other }
{
    let is_other = key.rank != other.rank || key.opener != other.opener;
    let is_exclusive = key.exclusive || other.exclusive;
    key.window == other.window && key.target == other.target && is_other && is_exclusive
}
