//! The logs of a trial: what the ranks of a made-up program would have recorded.
//!
//! [`TrialLogs`] makes them as they are read, so a trial of any length takes the same memory. `specs/Trial.antt` says which bytes
//! they are, and `specs/TrialLogs.antt` in which pieces they come.
#![tactic(auto)]

mod rank_log;
mod text;
mod trial;
mod trial_logs;

pub use trial::Trial;
pub use trial_logs::TrialLogs;
