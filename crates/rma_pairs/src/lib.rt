//! The races of a run: pairs of its accesses that conflict while nothing orders them or keeps them apart (MPI 4.0, "One-Sided
//! Communications").
//!
//! [`race_by`] tells whether two accesses race, and by which rule, [`common_bytes`] are the bytes that both touch, and
//! [`race_between`] says both as it is found. [`in_order`] puts what is found in the order of the report, each once. What the races of a
//! run are, as one list, is said in `specs/Races.antt`, with laws.
#![tactic(auto)]

mod common;
mod found;
pub mod laws;
mod names;
mod order;
mod race;

pub use common::common_bytes;
pub use found::race_between;
pub use order::in_order;
pub use race::race_by;
