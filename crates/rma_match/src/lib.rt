//! How the calls of the ranks of a run match.
//!
//! Messages, rounds of collectives, and posts with their starts each have a crate of their own. [`Matches`] are all three of one
//! run, made once: what has no match is read from them, and so are the links between the ranks.
//!
//! [`LiveMatch`] takes the calls of the ranks one at a time, in any order of the ranks. It answers the call of another rank that
//! matches a call, and what the return of a call waits for as soon as all of that is taken. Who takes part in a call is what the
//! rank itself has declared before it.
#![tactic(auto)]

mod awaited;
mod groups;
pub mod laws;
mod live_match;
mod matches;
mod sources;

pub use live_match::LiveMatch;
pub use matches::Matches;
