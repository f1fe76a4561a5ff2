//! What an audit finds, and the text of its report.
//!
//! [`Findings`] are the number of the logs and of their lines, and the list of what is wrong with them. Each [`Finding`] is one
//! line of the report: the first bad line of a log, a call that the calls of other ranks do not match, a call that is never left,
//! one outside the epochs that allow it, two accesses or epochs that may not be at once, or what a strict audit finds of assertions and
//! of attached memory. [`write_text`] writes the report to a sink, with as many findings as are asked for, and [`write_explain`] one
//! finding with the two cuts that show it; they take no memory, and what they wrote before a [`WriteFault`] is a prefix of the text.
#![tactic(auto)]

mod buffer;
mod explain;
mod finding;
mod json;
mod line;
mod pair;
mod pair_json;
mod report;
mod strict;

pub use explain::write_explain;
pub use finding::{Finding, FindingList, Findings};
pub use json::json_text;
pub use report::{WriteFault, write_text};
pub use strict::{StrictFault, StrictReason};
