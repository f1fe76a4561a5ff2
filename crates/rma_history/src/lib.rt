//! The accesses to the memory of one rank that later ones may race with (MPI 4.0, "One-Sided Communications").
//!
//! A [`MemoryHistory`] is given the accesses one by one, in an order in which those of each rank come in that of its log. It tells the
//! races of each with those before, and lets an access go that is before all which are still to come: where ranks synchronize, few are
//! kept at a time, however long the run. A store is let go only once it is published to each window of the separate model. What is kept
//! lies in chains of accesses that do the same, found by the bytes that they touch; where a window has the separate model
//! ([`ModelledWindows`]), accesses that share no byte may conflict, and each chain is asked.
#![tactic(auto)]

mod history;
mod horizon;
pub mod laws;
mod modelled;
mod next_calls;
mod overlaps;
mod passed;
mod reach;
mod retire;
mod search;

pub use history::MemoryHistory;
pub use modelled::ModelledWindows;
