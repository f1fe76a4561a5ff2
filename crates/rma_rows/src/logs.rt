//! Reading the logs of a row.
ghost use Rattle.std.specs.Prelude.{IfOk};
ghost use Rattle.rma_accesses.specs.Run.{AreGood};
ghost use Rattle.rma_rows.specs.Logs.{IfCalls, IsEndOfLog};

use rma_base::Rank;
use rma_base::limits::FED;
use rma_book::{BookEnd, FormFault, RankBook};
use rma_call::RankCalls;
use rma_table::Failure;
use std::alloc::Global;

/// What the logs of a run come to.
#[derive(Drop)]
pub enum Logs {
    /// All are good, and these are the calls of their ranks.
    Calls(Vec<RankCalls>),
    /// The log of this rank has this bad line.
    Fault(Rank, FormFault),
}

/// Reads the logs of a run.
///
/// # Errors
///
/// `Row` where a log is longer than one may be, and `Memory` where there is none left.
pub fn read(alloc: Global, logs: &[String]) -> Result<Logs, Failure>
    ensures { IfOk result (IfCalls AreGood) }
{
    let Ok(count) = u32::try_from(logs.len()) else {
        return Err(Failure::Row);
    };
    let mut calls = Vec::new(alloc);
    for rank in 0..count {
        match end_of(alloc, Rank(rank), count, &logs[rank as usize])? {
            BookEnd::Calls(own) => calls.push(own)?,
            BookEnd::Fault(fault) => return Ok(Logs::Fault(Rank(rank), fault)),
        }
    }
    Ok(Logs::Calls(calls))
}

/// The outcome of the log of a rank among so many.
fn end_of(alloc: Global, rank: Rank, ranks: u32, log: &str) -> Result<BookEnd, Failure>
    ensures { IfOk result (IsEndOfLog ranks rank.0) }
{
    let mut book = RankBook::new(alloc, rank, ranks)?;
    if log.len() as u64 > FED - book.fed() {
        return Err(Failure::Row);
    }
    book.feed(log.as_bytes())?;
    Ok(book.end()?)
}
