//! The runs that the rows of tables give, for the programs that answer them.
//!
//! [`RunRow`] is what a row gives: the logs of a run, line by line, as `docs/FORMAT.md` has them, and what is asked. [`read`] gives the
//! calls of the logs.
#![tactic(auto)]

mod logs;
mod run;
mod text;

pub use logs::{Logs, read};
pub use run::RunRow;
pub use text::{print_fault, print_named};
