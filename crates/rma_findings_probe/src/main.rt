//! Answers the rows of a table by what is found in runs, for the checks: `rma_findings_probe SUBJECT FILE`. With `rma_findings_probe shown
//! LOG..` it prints how many races the run of some logs has, and how many of them are shown by cuts that are the least.
//!
//! A row gives the logs of a run. For each row its name is printed, and then the answer, line by line: for `races` the pairs of accesses
//! that race, with the bytes that both touch; for `cuts` the least cuts that show each race, and of each two cuts that the row names
//! whether they show it; and for `strict` what a strict audit finds. A row of `trials` gives no logs, but trials whose logs are made.
#![tactic(auto)]

mod audits;
mod cuts;
mod given;
mod pulls;
mod races;
mod run;
mod scene;
mod shown;
mod strict;
mod trials;
mod words;

use rma_rows::RunRow;
use rma_table::{Failure, Row, rows_of, texts_of, words_given};
use run::Question;
use std::process::ExitCode;
use words::{Subject, subject_in};

/// Prints the answer to a row.
fn answer_row(rt: HostRuntime, subject: Subject, row: &Row) -> Result<(), Failure> {
    println!(rt; "row {}", row.name)?;
    if subject == Subject::Trials {
        return trials::answer(rt, &row.lines);
    }
    let run = RunRow::of(rt.alloc(), &row.lines)?;
    match subject {
        Subject::Races => run::answer(rt, Question::Races, &run.logs),
        Subject::Cuts => run::answer(rt, Question::Cuts(&run.asked), &run.logs),
        Subject::Strict => strict::answer(rt, &run.logs),
        Subject::Shown | Subject::Trials => Err(Failure::Row),
    }
}

/// Prints the answers to all rows of a table.
fn answer_rows(rt: HostRuntime, subject: Subject, text: &str) -> Result<(), Failure> {
    let rows = rows_of(rt.alloc(), text)?;
    for row in rows.as_slice() {
        answer_row(rt, subject, row)?;
    }
    Ok(())
}

/// Prints the answers to some tables.
fn answer_tables(rt: HostRuntime, subject: Subject, texts: &[String]) -> Result<(), Failure> {
    for text in texts {
        answer_rows(rt, subject, text)?;
    }
    Ok(())
}

/// Does what the words ask for.
fn probe(rt: HostRuntime) -> Result<(), Failure> {
    let words = words_given(rt)?;
    let (subject, names) = subject_in(&words)?;
    let texts = texts_of(rt, names)?;
    match subject {
        Subject::Shown => run::answer(rt, Question::Shown, &texts),
        _ => answer_tables(rt, subject, &texts),
    }
}

fn main(rt: HostRuntime) -> ExitCode {
    match probe(rt) {
        Ok(()) => ExitCode::from(0),
        Err(failure) => {
            let _ = eprintln!(rt; "rma_findings_probe: {}", failure.word());
            ExitCode::from(2)
        }
    }
}
