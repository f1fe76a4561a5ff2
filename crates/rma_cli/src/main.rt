//! The auditor as a program: it reads the logs that its words name, writes the report to standard output, and ends with
//! the number of the answer.
//!
//! [`FileLogs`] are the files as the logs of a run, and [`StandardOutput`] takes the report. What they promise of the bytes is
//! said in the words of the kit's readers and writers, of which those of the operating system are one kind.
#![tactic(auto)]

mod exit;
mod file_logs;
mod standard_output;
mod word;

use exit::{complain, exit_number};
use file_logs::FileLogs;
use rma_audit::{Status, run};
use standard_output::StandardOutput;
use std::process::ExitCode;
use word::{names_in, words_given};

/// The answer to the words of the command line.
fn answer(rt: HostRuntime) -> Status {
    let words = match words_given(&rt, rt.alloc()) {
        Ok(words) => words,
        Err(status) => return status,
    };
    let mut logs = FileLogs::new(rt, rt.alloc(), names_in(&words));
    let mut output = StandardOutput::new(rt.stdout(), rt);
    run(rt.alloc(), words.as_slice(), &mut logs, &mut output)
}

fn main(rt: HostRuntime) -> ExitCode {
    let status = answer(rt);
    let _ = complain(&rt, status);
    ExitCode::from(exit_number(status))
}
