//! The lock epochs in which accesses lie (MPI 4.0, "One-Sided Communications", lock).
//!
//! An access to a target lies in the lock epoch that reaches it: [`key_of`] tells it. An access of a rank to its own memory lies in
//! each lock epoch of the rank on itself that is held from its call to the one by which it is done. [`OwnLocks`] go along the calls of
//! a rank and give these epochs for each access, which [`KeyLists`] keep: accesses that lie in the same epochs share one list.
#![tactic(auto)]

mod key_lists;
mod keys;
mod own_locks;

pub use key_lists::KeyLists;
pub use keys::key_of;
pub use own_locks::OwnLocks;
