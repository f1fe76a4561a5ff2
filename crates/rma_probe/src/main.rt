//! Answers the rows of a table by the public calls of the crates, for the checks: `rma_probe SUBJECT FILE`. With `rma_probe count
//! LOG..` it makes the accesses of some logs and prints how many they are, to be timed.
//!
//! A row gives the logs of a run. For each row its name is printed, and then the answer, line by line: for `accesses` the accesses of the
//! run, for `lists` the lists beside them, and for `table` the pairs of them that conflict, and what orders them or keeps them apart.
#![tactic(auto)]

mod accesses;
mod count;
mod lists;
mod run;
mod table;
mod text;
mod words;

use rma_rows::RunRow;
use rma_table::{Failure, rows_of, texts_of, words_given};
use std::process::ExitCode;
use words::{Subject, subject_in};

/// Prints the answers to all rows of a table.
fn answer_rows(rt: HostRuntime, subject: Subject, text: &str) -> Result<(), Failure> {
    let rows = rows_of(rt.alloc(), text)?;
    for row in rows.as_slice() {
        println!(rt; "row {}", row.name)?;
        let run = RunRow::of(rt.alloc(), &row.lines)?;
        run::answer(rt, subject, &run.logs)?;
    }
    Ok(())
}

/// Does what the words ask for.
fn probe(rt: HostRuntime) -> Result<(), Failure> {
    let words = words_given(rt)?;
    let (subject, names) = subject_in(&words)?;
    let texts = texts_of(rt, names)?;
    if subject == Subject::Count {
        return run::answer(rt, subject, &texts);
    }
    for text in &texts {
        answer_rows(rt, subject, text)?;
    }
    Ok(())
}

fn main(rt: HostRuntime) -> ExitCode {
    match probe(rt) {
        Ok(()) => ExitCode::from(0),
        Err(failure) => {
            let _ = eprintln!(rt; "rma_probe: {}", failure.word());
            ExitCode::from(2)
        }
    }
}
