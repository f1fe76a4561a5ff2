//! Assertions of synchronisation calls that do not hold in a run (MPI 4.0, "One-Sided Communications", assertions).
//!
//! [`broken_assertions`] lists them, for each call and reason once, with the first call that shows it.
#![tactic(auto)]

mod asserting;
mod assertion;
mod broken;
mod firsts;
pub mod laws;
mod locks;
mod publishing;
mod starts;
mod stores;
mod updates;

pub use assertion::{AssertionReason, BrokenAssertion};
pub use broken::broken_assertions;
