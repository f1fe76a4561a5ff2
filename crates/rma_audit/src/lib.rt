//! The top call: the command line, the audit of the logs that it names, and the report.
//!
//! [`run`] opens the logs, reads them to their ends, audits them and writes the report; its [`Status`] says how it ended. It is
//! generic over where logs come from and where the report goes, so the program and a test run the same call. What each answer
//! says stands in `specs/Answers.antt`; which words are a command, in `rma_command`.
#![tactic(auto)]

mod judging;
mod opening;
mod program;
mod reading;
mod reporting;
mod status;
mod stop;

pub use program::run;
pub use status::Status;
