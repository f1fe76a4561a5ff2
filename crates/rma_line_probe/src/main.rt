//! Answers the rows of a table on lines, and on the logs of one rank, by the public calls of the crates, for the checks:
//! `rma_line_probe SUBJECT FILE`.
//!
//! For each row its name is printed, and then the answer, line by line: for `lines` what each line of the row states, as its canonical
//! line, or why it is bad; for `lex` the lines of a text, and the fields of a line; for `log` how many calls a log records, or its first bad
//! line, and what is known of it while its bytes come; and for `calls` the calls that a log records.
#![tactic(auto)]

mod access;
mod calls;
mod cut;
mod epoch;
mod escaped;
mod given;
mod lex;
mod lines;
mod logs;
mod outcome;
mod read;
mod sync;
mod words;

use logs::Question;
use rma_table::{Failure, Row, rows_of, texts_of, words_given};
use std::process::ExitCode;
use words::{Subject, subject_in};

/// Prints the answer to a row.
fn answer_row(rt: HostRuntime, subject: Subject, row: &Row) -> Result<(), Failure> {
    println!(rt; "row {}", row.name)?;
    match subject {
        Subject::Lines => lines::answer(rt, &row.lines),
        Subject::Lex => lex::answer(rt, &row.lines),
        Subject::Log => logs::answer(rt, Question::Outcome, &row.lines),
        Subject::Calls => logs::answer(rt, Question::Calls, &row.lines),
    }
}

/// Prints the answers to all rows of a table.
fn answer_rows(rt: HostRuntime, subject: Subject, text: &str) -> Result<(), Failure> {
    let rows = rows_of(rt.alloc(), text)?;
    for row in rows.as_slice() {
        answer_row(rt, subject, row)?;
    }
    Ok(())
}

/// Does what the words ask for.
fn probe(rt: HostRuntime) -> Result<(), Failure> {
    let words = words_given(rt)?;
    let (subject, names) = subject_in(&words)?;
    let texts = texts_of(rt, names)?;
    for text in &texts {
        answer_rows(rt, subject, text)?;
    }
    Ok(())
}

fn main(rt: HostRuntime) -> ExitCode {
    match probe(rt) {
        Ok(()) => ExitCode::from(0),
        Err(failure) => {
            let _ = eprintln!(rt; "rma_line_probe: {}", failure.word());
            ExitCode::from(2)
        }
    }
}
