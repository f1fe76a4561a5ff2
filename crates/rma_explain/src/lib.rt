//! The cuts that show a race of a run.
//!
//! A race that is found names two accesses, which [`access_named`] looks up. [`cuts_of_race`] makes the least two cuts of the run that
//! show that neither is before the other, and checks them by the links of the run, without the clocks by which they were made. That they
//! are the only ones is a law.
#![tactic(auto)]

mod explain;
pub mod laws;
mod named;

pub use explain::cuts_of_race;
pub use named::access_named;
