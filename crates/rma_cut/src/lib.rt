//! Cuts of a run that show that neither of two accesses is before the other (MPI 4.0, "One-Sided Communications").
//!
//! A cut says of each rank how many of its first points it has reached. Where it has each point that comes before one of its points, the
//! run may have been in this state. In one such state the second of two accesses has started while the first is not yet complete, or not
//! yet visible; in another one it is the other way round. So neither is before the other: [`Cuts`] are a witness of a race.
//!
//! [`cuts_for`] makes the least such cuts, by the clocks of a run. [`check_cuts`] tells whether cuts show it, by the links of the run and
//! the lists beside its accesses. It asks no clocks, and shares no function with what makes them.
#![tactic(auto)]

mod check;
mod closed;
mod cuts;
pub mod laws;
mod make;
mod search;

pub use check::check_cuts;
pub use cuts::{Cut, Cuts};
pub use make::cuts_for;
