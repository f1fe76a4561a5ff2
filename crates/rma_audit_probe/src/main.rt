//! Answers the rows of a table by the top call of the auditor, for the checks: `rma_audit_probe audit FILE`.
//!
//! A row gives the logs of a run, which the call reads in memory by the names `0`, `1` and so on. For each row its name is printed, and
//! then what the call answers and writes. Where the row asks nothing, that is the report of an audit of all logs, behind its first line,
//! and in which ways of reading the logs another one is written. Else it is what each question asks for: a question gives other words,
//! or calls that fail.
#![tactic(auto)]

mod answer;
mod faults;
mod names;
mod order;
mod question;
mod report;
mod run;
mod words;

use rma_rows::RunRow;
use rma_table::{Failure, Row, rows_of, texts_of, words_given};
use std::process::ExitCode;
use words::{Subject, subject_in};

/// Prints the answer to a row.
fn answer_row(rt: HostRuntime, subject: Subject, row: &Row) -> Result<(), Failure> {
    println!(rt; "row {}", row.name)?;
    let run = RunRow::of(rt.alloc(), &row.lines)?;
    match subject {
        Subject::Audit if run.asked.is_empty() => report::answer(rt, &run.logs),
        Subject::Audit => question::answer(rt, &run.logs, &run.asked),
    }
}

/// Prints the answers to all rows of a table.
fn answer_rows(rt: HostRuntime, subject: Subject, text: &str) -> Result<(), Failure> {
    let rows = rows_of(rt.alloc(), text)?;
    for row in rows.as_slice() {
        answer_row(rt, subject, row)?;
    }
    Ok(())
}

/// Does what the words ask for.
fn probe(rt: HostRuntime) -> Result<(), Failure> {
    let words = words_given(rt)?;
    let (subject, names) = subject_in(&words)?;
    let texts = texts_of(rt, names)?;
    for text in &texts {
        answer_rows(rt, subject, text)?;
    }
    Ok(())
}

fn main(rt: HostRuntime) -> ExitCode {
    match probe(rt) {
        Ok(()) => ExitCode::from(0),
        Err(failure) => {
            let _ = eprintln!(rt; "rma_audit_probe: {}", failure.word());
            ExitCode::from(2)
        }
    }
}
