//! The calls of a rank that make stores and updates visible (MPI 4.0, "One-Sided Communications").
//!
//! In the separate memory model, what a rank stores in its own memory reaches the copy that others access by a call that
//! [`publishes`] it, and what others update there reaches the rank itself by one that [`makes_visible`] it. [`list_calls`] puts
//! the sound ones of a rank into [`rma_rules::Spans`], by window. It takes constant work a call.
#![tactic(auto)]

mod lists;
mod visible;

pub use lists::list_calls;
pub use visible::{makes_visible, publishes};
