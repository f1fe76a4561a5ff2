//! The audit of the logs of a run, as their bytes come.
//!
//! An [`Audit`] keeps one book a rank. It is fed the logs in pieces, of any size and in any order of the ranks, and once all
//! have ended it answers the findings of the first pass that finds something: bad lines, calls that do not match, and calls that are
//! never left, each in a pass of its own, and then the epoch faults with what is found of pairs, which are races, locks of exposed
//! targets and doubled posts. Where all of these find nothing, a strict audit asks assertions, and then the memory of dynamic windows;
//! and an audit that explains one of its findings gives the two cuts that show it, where it is a race.
//!
//! The first three passes are one [`study`] for all three: the calls of all ranks are matched once, their points are ordered once, and the
//! later passes see these matches and this order ([`verdict`]).
//!
//! [`study`]: study.rt
//! [`verdict`]: verdict.rt
#![tactic(auto)]

mod audit;
mod epochs;
mod explain;
mod faults;
pub mod laws;
mod matching;
mod order;
mod outcome;
mod pairs;
mod question;
mod run;
mod strict;
mod study;
mod verdict;

pub use audit::{Audit, Explained};
