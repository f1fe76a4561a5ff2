//! All races of a run (MPI 4.0, "One-Sided Communications").
//!
//! [`races_of`] takes the accesses of a run one by one, in an order of its points, and gives each to the history of the memory that it
//! touches, which tells its races with those before. What comes of it is one list, in the order of the report.
#![tactic(auto)]

mod races;
mod taking;

pub use races::races_of;
