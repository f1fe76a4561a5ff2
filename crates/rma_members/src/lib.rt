//! Who takes part in the rounds and windows of good logs that match.
//!
//! Where the logs of a run are good and no call is at fault for those of other ranks, the calls of a round are by exactly the members
//! of its communicator, and so are the parts of a window. `specs/Matched.antt` has the words, and [`laws`] says so. There is no code here.
#![tactic(auto)]

pub mod laws;
