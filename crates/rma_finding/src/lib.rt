//! What is found of two accesses of a run, or of two epochs, that MPI does not allow at once (MPI 4.0, "One-Sided Communications").
//!
//! A [`PairFinding`] names the lines of both, and says of a race which bytes both accesses touch. It owns what it names: the logs may
//! be gone when it is read.
#![tactic(auto)]

mod finding;

pub use finding::{DoubledPost, ExposedLock, FoundRace, PairFinding};
