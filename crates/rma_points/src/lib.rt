//! The points at which accesses start and are done are those of the run.
//!
//! The order of two accesses is asked of what is known of the points of a run and of its windows. `specs/Points.antt` says which
//! points and calls are of a run, and [`laws`] that those of accesses are. There is no code here.
#![tactic(auto)]

pub mod laws;
