//! The order of the points of a run, and the calls that it rules out.
//!
//! Messages, rounds of collectives, and posts with their starts link the calls of different ranks: [`run_links`] gives all
//! links of a run as one [`rma_link::Links`], and with the ranks' own order they are happens-before. Where calls wait for one another in a
//! circle, no execution of the program can have made them as they were recorded: [`impossible_calls`] gives the first call
//! of each rank that is never left, each an [`ImpossibleCall`], and [`stuck_calls`] does so from what a walk found.
//!
//! `specs/RunLinks.antt` says which links a run has, `specs/Impossible.antt` which calls are told.
#![tactic(auto)]

mod counts;
mod impossible;
pub mod laws;
mod links;
mod step;

pub use counts::call_counts;
pub use impossible::{ImpossibleCall, impossible_calls, stuck_calls};
pub use links::run_links;
