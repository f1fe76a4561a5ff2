//! Which calls complete the operations that a rank called before (MPI 4.0, "One-Sided Communications").
//!
//! In a lock epoch an operation is complete at its target once the rank returns from the first unlock or flush behind it that
//! covers the target, and its buffers are free again once it returns from the first such call, local flush or complete, or from
//! the wait of its request. [`Completions`] take the calls of a rank one at a time and answer these calls for any operation
//! before them.
//!
//! A call that completes something costs a look-up of its window and one of its target, however many operations it completes:
//! it leaves its number, and an operation finds the first number behind its own by a search in sorted lists.
#![tactic(auto)]

mod completing;
mod completions;
pub mod laws;
mod numbers;
mod window_completions;

pub use completing::{Completing, Completion, completed_by};
pub use completions::Completions;
