//! What accesses do, and whether by that they may race with another.
ghost use Rattle.std.specs.Prelude.{◌≡◌, ◌↔◌, List, Contains, IsTrue, map};
ghost use Rattle.rma_link.specs.declared.links.Links.{Links};
ghost use Rattle.rma_rules.specs.declared.lock.LockKey.{LockKey};
ghost use Rattle.rma_rules.specs.declared.rule.Rule.{Rule};
ghost use Rattle.rma_rules.specs.Access.{Access, IsOnWindowOf};
ghost use Rattle.rma_rules.specs.Conflict.{Forbids};
ghost use Rattle.rma_rules.specs.Spans.{Spans};
ghost use Rattle.rma_finding.specs.declared.finding.FoundRace.{FoundRace};
ghost use Rattle.rma_pairs.specs.Races.{IsFoundBetween};
ghost use Rattle.rma_chain.specs.Chain.{deed, whenever};
ghost use Rattle.rma_chain.specs.inside.Locks.{AnyExcludeRanks, ExcludeRanks};

use rma_rules::{Access, Bytes, LockKey, forbids};
use rma_window::Windows;

/// Whether two accesses do the same.
pub(crate) fn do_the_same(a: &Access<'_>, b: &Access<'_>) -> bool
    ensures { IsTrue result ↔ (deed a.now ≡ deed b.now) }
{
    let are_alike = a.memory == b.memory
        && a.kind == b.kind
        && a.window == b.window
        && a.element == b.element;
    are_alike && are_same_runs(&a.bytes, &b.bytes) && are_same_locks(a.locks, b.locks)
}

/// Whether two sets of bytes have the same runs.
fn are_same_runs(a: &Bytes<'_>, b: &Bytes<'_>) -> bool
    ensures { IsTrue result ↔ (a.now ≡ b.now) }
{
    if a.len() != b.len() {
        return false;
    }
    'runs: for i in 0..a.len() {
        if a.get(i) != b.get(i) {
            return false;
        }
    }
    true
}

/// Whether some lock epochs are others, but for the calls that open them.
fn are_same_locks(keys: &[LockKey], others: &[LockKey]) -> bool
    ensures { IsTrue result ↔ (map whenever keys.now ≡ map whenever others.now) }
{
    if keys.len() != others.len() {
        return false;
    }
    'locks: for i in 0..keys.len() {
        if !is_same_lock(keys[i], others[i]) {
            return false;
        }
    }
    true
}

/// Whether a lock epoch is another, but for the calls that open them.
fn is_same_lock(key: LockKey, other: LockKey) -> bool
    ensures { IsTrue result ↔ (whenever key ≡ whenever other) }
{
    key.window == other.window
        && key.target == other.target
        && key.rank == other.rank
        && key.exclusive == other.exclusive
}

/// Whether an access that does what this one does may race with another, whenever it does so: the two conflict, and no locks keep them
/// apart.
pub(crate) fn may_race(a: &Access<'_>, b: &Access<'_>, windows: &Windows) -> bool
    requires a { IsOnWindowOf windows.now a.now }
    requires b { IsOnWindowOf windows.now b.now }
    ensures may { IsTrue result → ((rule : Rule) × Forbids windows.now a.now b.now rule) × ¬ AnyExcludeRanks a.now.locks b.now.locks }
    ensures never { (links : Links) (spans : Spans) (other : Access) (race : FoundRace) → deed other ≡ deed a.now → IsFoundBetween links windows.now spans other b.now race → IsTrue result }
{
    forbids(a, b, windows).is_some() && !any_exclude_ranks(a.locks, b.locks)
}

/// Whether one of some lock epochs and one of others, by two ranks, are never open at once.
fn any_exclude_ranks(keys: &[LockKey], others: &[LockKey]) -> bool
    ensures { IsTrue result ↔ AnyExcludeRanks keys.now others.now }
{
    for key in keys {
        if excludes_a_rank(*key, others) {
            return true;
        }
    }
    false
}

/// Whether a lock epoch and one of others, by another rank, are never open at once.
fn excludes_a_rank(key: LockKey, others: &[LockKey]) -> bool
    ensures { IsTrue result ↔ ((other : LockKey) × Contains others.now other × ExcludeRanks key other) }
{
    for other in others {
        if exclude_ranks(key, *other) {
            return true;
        }
    }
    false
}

/// Whether two lock epochs, by two ranks, are never open at once.
fn exclude_ranks(key: LockKey, other: LockKey) -> bool
    ensures { IsTrue result ↔ ExcludeRanks key other }
{
    let is_exclusive = key.exclusive || other.exclusive;
    key.window == other.window
        && key.target == other.target
        && key.rank != other.rank
        && is_exclusive
}
