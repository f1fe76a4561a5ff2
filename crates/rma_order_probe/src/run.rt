//! The runs that rows give.
ghost use Rattle.rma_accesses.specs.Run.{AreGood};

use crate::words::Subject;
use crate::{epochs, order, sources};
use rma_call::RankCalls;
use rma_rows::{Logs, RunRow, print_fault, read};
use rma_table::Failure;

/// Prints the answer to a row, or the first bad line of one of its logs.
///
/// # Errors
///
/// `Row` where a log is longer than one may be, or what is asked is none of the questions of the subject, and `Memory` where there is
/// none left.
pub fn answer(rt: HostRuntime, subject: Subject, row: &RunRow) -> Result<(), Failure> {
    match read(rt.alloc(), &row.logs)? {
        Logs::Calls(calls) => answer_calls(rt, subject, &calls, &row.asked),
        Logs::Fault(rank, fault) => Ok(print_fault(rt, rank, fault)?),
    }
}

/// Prints the answer to a row whose logs are good.
fn answer_calls(
    rt: HostRuntime,
    subject: Subject,
    calls: &[RankCalls],
    asked: &[String],
) -> Result<(), Failure>
    requires { AreGood calls.now }
{
    match subject {
        Subject::Order => order::answer(rt, calls, asked),
        Subject::Sources => sources::answer(rt, calls, asked),
        Subject::Epochs => epochs::answer(rt, calls, asked),
    }
}
