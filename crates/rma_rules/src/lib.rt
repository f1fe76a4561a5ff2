//! Accesses of one-sided communication, and which pairs of them conflict (MPI 4.0, "One-Sided Communications").
//!
//! An [`Access`] is what one call does to the memory of one rank: a load or a store of that rank, the use of a buffer by a call,
//! or what a call does at its target. It has its [`Bytes`], a [`Kind`], where it starts and is done, and the locks under which it
//! is made. [`forbids`] tells by which [`Rule`] two accesses conflict where nothing orders them; [`separated`] whether locks keep
//! them apart; and [`before`] whether one is complete, and visible to the other, before that starts. The calls that make stores
//! and updates visible are listed in [`Spans`], beside the epochs in which accesses lie.
#![tactic(auto)]

mod access;
mod access_name;
mod accumulate;
mod bytes;
mod conflict;
mod kind;
pub mod laws;
mod lock;
mod order;
mod own;
mod part;
mod rule;
mod span;
mod spans;
mod target;
mod walk;

pub use access::Access;
pub use access_name::{AccessName, Role};
pub use bytes::Bytes;
pub use conflict::forbids;
pub use kind::{Kind, Operation};
pub use lock::{LockKey, separated};
pub use order::before;
pub use rule::Rule;
pub use span::{Exposure, ExposureKind, LockSpan, Owner, Post};
pub use spans::Spans;
