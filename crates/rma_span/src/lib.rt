//! Accesses with the points where they start and are done, and the lock epochs in which they lie (MPI 4.0, "One-Sided
//! Communications").
//!
//! [`RankSpans`] are the spans of what the sound calls of one rank touch. They are made by one walk along its calls: which call
//! completes an access is had from [`rma_completion`], where an epoch opens and ends at a target from [`rma_side`], and the locks
//! of the rank on itself from [`rma_cover`]. An access is made of its call and its span where it is asked for, by
//! [`RankSpans::access`]; what is kept of a call is 52 bytes, and accesses in a row that lie in the same lock epochs share the list of
//! these.
#![tactic(auto)]

mod completed;
pub mod laws;
mod own;
mod placed;
mod points;
mod rank_spans;
mod run;
mod spans;
mod target;
mod walk;

pub use rank_spans::RankSpans;
