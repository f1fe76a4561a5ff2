//! Accesses that do the same again and again, and the races of another access with them (MPI 4.0, "One-Sided Communications").
//!
//! A counter that a rank raises 20,000 times is 20,000 accesses that touch the same bytes in the same way. A [`Chain`] holds such accesses
//! in their order. Those that are before another access are a beginning of it, and those that the other is before are an end, so that both
//! are found by bisection, and only what lies between is looked at one by one.
#![tactic(auto)]

mod between;
mod chain;
mod deed;
mod follow;
pub mod laws;
mod place;

pub use chain::Chain;
