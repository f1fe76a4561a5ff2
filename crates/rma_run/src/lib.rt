//! The calls of the ranks of a run, and what is had of them one by one.
//!
//! A run is a list of logs, of which the i-th is that of rank i; [`is_run`] asks whether logs are one. `specs/Run.antt` has the
//! words in which the passes over a run are stated: the calls of each rank, how many they are, and what is had of each call by
//! its number and by its rank. The lemmas about them stand here too.
#![tactic(auto)]

mod run;

pub use run::is_run;
