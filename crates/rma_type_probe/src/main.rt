//! Answers the rows of a table on datatypes, on layouts and on sets of bytes, by the public calls of the crates, for the checks:
//! `rma_type_probe SUBJECT FILE`.
//!
//! For each row its name is printed, and then the answer, line by line: for `types` what constructors make or why they are refused, and
//! what is known of datatypes; for `layouts` which bytes buffers cover; and for `bytes` what sets of bytes are and share.
#![tactic(auto)]

mod bytes;
mod datatype;
mod integers;
mod layout;
mod layouts;
mod runs;
mod signature;
mod table;
mod types;
mod words;

use rma_table::{Failure, Row, rows_of, texts_of, words_given};
use std::process::ExitCode;
use words::{Subject, subject_in};

/// Prints the answer to a row.
fn answer_row(rt: HostRuntime, subject: Subject, row: &Row) -> Result<(), Failure> {
    println!(rt; "row {}", row.name)?;
    match subject {
        Subject::Types => types::answer(rt, &row.lines),
        Subject::Layouts => layouts::answer(rt, &row.lines),
        Subject::Bytes => bytes::answer(rt, &row.lines),
    }
}

/// Prints the answers to all rows of a table.
fn answer_rows(rt: HostRuntime, subject: Subject, text: &str) -> Result<(), Failure> {
    let rows = rows_of(rt.alloc(), text)?;
    for row in rows.as_slice() {
        answer_row(rt, subject, row)?;
    }
    Ok(())
}

/// Does what the words ask for.
fn probe(rt: HostRuntime) -> Result<(), Failure> {
    let words = words_given(rt)?;
    let (subject, names) = subject_in(&words)?;
    let texts = texts_of(rt, names)?;
    for text in &texts {
        answer_rows(rt, subject, text)?;
    }
    Ok(())
}

fn main(rt: HostRuntime) -> ExitCode {
    match probe(rt) {
        Ok(()) => ExitCode::from(0),
        Err(failure) => {
            let _ = eprintln!(rt; "rma_type_probe: {}", failure.word());
            ExitCode::from(2)
        }
    }
}
