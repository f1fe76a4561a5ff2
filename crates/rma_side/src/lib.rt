//! Where the epochs of a rank open and end at their targets (MPI 4.0, "One-Sided Communications").
//!
//! An epoch is synchronised with a target by calls of that target: a phase by its fences, an access epoch by its post and the
//! expwait of that. A lock epoch is synchronised by its origin alone, and opens at the target with its creation of the window.
//! [`side_of`] answers these calls of one epoch and one target, as a [`Side`]. [`Sides`] are those of one rank: each is found once,
//! and has a number from then on. To ask for one takes look-ups in tables, however many there are.
#![tactic(auto)]

pub mod laws;
mod side;
mod sides;

pub use side::{Side, side_of};
pub use sides::Sides;
