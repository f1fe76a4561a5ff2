//! The logs of a row, one by one.
use crate::calls::print_calls;
use crate::given::{GivenLog, begins_log, lines_to_next};
use crate::outcome::print_outcome;
use rma_table::Failure;

/// What is asked of a log.
#[derive(Clone, Copy, Debug, PartialEq, Eq)]
pub enum Question {
    /// What it comes to.
    Outcome,
    /// The calls that it records.
    Calls,
}

/// Prints what is asked of each log of a row.
///
/// # Errors
///
/// `Row` where the lines give no logs, and `Memory` where there is none left.
pub fn answer(rt: HostRuntime, question: Question, lines: &[String]) -> Result<(), Failure> {
    if !lines_to_next(lines).is_empty() {
        return Err(Failure::Row);
    }
    for index in 0..lines.len() {
        if begins_log(&lines[index]) {
            answer_log(rt, question, &lines[index], &lines[index + 1..])?;
        }
    }
    Ok(())
}

/// Prints what is asked of the log that a line begins, of which the lines behind it are those up to the next log.
fn answer_log(
    rt: HostRuntime,
    question: Question,
    first: &str,
    behind: &[String],
) -> Result<(), Failure> {
    let log = GivenLog::of(rt.alloc(), first, lines_to_next(behind))?;
    match question {
        Question::Outcome => print_outcome(rt, &log),
        Question::Calls => print_calls(rt, &log),
    }
}
