//! The windows of a run (MPI 4.0, "One-Sided Communications").
//!
//! A window is created by every member of its communicator, and each brings a [`Part`] of its memory. [`Windows`] is the
//! table of them: it takes the calls of the ranks one at a time, in any order of the ranks, or those of whole logs at once.
//! A window has a number in it, a [`WindowId`], so that its name is looked up once. Contracts see the table as the list of
//! the windows by these numbers, each with its name, what it was first created with, and its parts.
//!
//! All names stand in one map and all parts in another, so a part takes the same memory however few ranks have one.
#![tactic(auto)]

pub mod laws;
mod part;
mod whole;
mod window_id;
mod windows;

pub use part::Part;
pub use window_id::WindowId;
pub use windows::Windows;
