//! The order of a run as one call.
//!
//! [`order_of`] makes the order of a run whose calls match. Where the run is possible it is [`HappensBefore`]: the links of the
//! run, its points in an order that has each after those before it, and clocks that tell of any two points whether one is at
//! or before the other. Otherwise calls wait for one another in a circle, and it is the first call of each rank that is never left.
//! [`RunOrder`] is one or the other, and `specs/RunOrder.antt` says which.
#![tactic(auto)]

pub mod laws;
mod making;
mod order;

pub use making::order_of;
pub use order::{HappensBefore, RunOrder};
