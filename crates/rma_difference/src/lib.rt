//! The calls that differ from the first call of their round (MPI 4.0, "Collective Communication" and "One-Sided
//! Communications").
//!
//! [`round_differences`] scans all calls once, by rank and then by line, keeps the first call of each round, and answers the
//! [`RoundDifferences`]: the calls that do not agree with it, what the calls declare, and whether every member makes as many calls
//! as any rank, so that none is missing. A call costs a look-up of its name.
#![tactic(auto)]

mod all_rounds;
mod call_count;
mod difference;
mod round;
mod scan;

pub use difference::{RoundDifferences, round_differences};
