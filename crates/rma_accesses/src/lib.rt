//! The accesses of a run, with the epochs in which they stand (MPI 4.0, "One-Sided Communications").
//!
//! [`RunEpochs`] are the windows of a run, and for each rank its epochs and its first epoch fault. [`RunAccesses`] are made of
//! them: what the sound calls of each rank touch, from which an [`Access`](rma_rules::Access) is made where it is asked for, and the
//! lists beside accesses, of calls that make stores and updates visible, of lock epochs, posts and exposure epochs.
#![tactic(auto)]

mod accesses;
mod epochs;
mod fences;
mod lists;
mod rank;

pub use accesses::RunAccesses;
pub use epochs::{RankEpochs, RunEpochs};
pub use rank::RankAccesses;
