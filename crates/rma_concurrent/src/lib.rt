//! Epochs at one target that MPI does not allow at once (MPI 4.0, "One-Sided Communications"): a lock epoch that may be open while its
//! target exposes the same window, and a post between two fences of an exposure.
//!
//! [`concurrent_epochs`] finds all of both, by the lists beside the accesses of a run and its order.
#![tactic(auto)]

mod doubled;
mod epochs;
mod exposed;
mod exposures;
pub mod laws;
mod order;

pub use epochs::{ConcurrentEpochs, concurrent_epochs};
