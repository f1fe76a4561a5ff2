//! The calls that some member does not make (MPI 4.0, "Collective Communication" and "One-Sided Communications").
//!
//! The k-th calls of a kind of the members of a communicator or a window are one round, in which each of them has a part.
//! [`missing_calls`] counts the calls of each rank on each name, and answers the [`MissingFaults`]: the calls whose number some
//! member does not reach. A call costs a look-up of its name.
#![tactic(auto)]

mod by_rank;
mod missing;
mod name_count;

pub use missing::{MissingFaults, missing_calls};
