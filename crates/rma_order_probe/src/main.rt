//! Answers the rows of a table by how the calls of runs match, for the checks: `rma_order_probe SUBJECT FILE`.
//!
//! A row gives the logs of a run. For each row its name is printed, and then the answer, line by line: for `order` the links between the
//! calls, the points of the run or the calls that are never left, and what the row asks of these; for `sources` what the row asks of calls
//! that come one by one; and for `epochs` the epochs of each rank, with the accesses that stand in them.
#![tactic(auto)]

mod asked;
mod clocks;
mod entries;
mod epoch;
mod epochs;
mod inbox;
mod linked;
mod links;
mod live_clocks;
mod live_epochs;
mod matched;
mod order;
mod run;
mod sources;
mod taken;
mod text;
mod words;

use rma_rows::RunRow;
use rma_table::{Failure, rows_of, texts_of, words_given};
use std::process::ExitCode;
use words::{Subject, subject_in};

/// Prints the answers to all rows of a table.
fn answer_rows(rt: HostRuntime, subject: Subject, text: &str) -> Result<(), Failure> {
    let rows = rows_of(rt.alloc(), text)?;
    for row in rows.as_slice() {
        println!(rt; "row {}", row.name)?;
        let run = RunRow::of(rt.alloc(), &row.lines)?;
        run::answer(rt, subject, &run)?;
    }
    Ok(())
}

/// Prints the answers to the tables that the words name.
fn probe(rt: HostRuntime) -> Result<(), Failure> {
    let words = words_given(rt)?;
    let (subject, names) = subject_in(&words)?;
    let texts = texts_of(rt, names)?;
    for text in &texts {
        answer_rows(rt, subject, text)?;
    }
    Ok(())
}

fn main(rt: HostRuntime) -> ExitCode {
    match probe(rt) {
        Ok(()) => ExitCode::from(0),
        Err(failure) => {
            let _ = eprintln!(rt; "rma_order_probe: {}", failure.word());
            ExitCode::from(2)
        }
    }
}
