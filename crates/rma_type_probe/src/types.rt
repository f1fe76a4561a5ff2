//! What constructors make, and what is known of datatypes.
use crate::datatype::{print_known, print_new};
use crate::signature::{print_fits, print_signature};
use crate::table::{Outcome, change, new_table, print_refused};
use crate::words::word_and_rest;
use rma_layout::LayoutTable;
use rma_table::Failure;

/// Prints what comes of the lines of a row, one after the other, in one table of datatypes.
///
/// # Errors
///
/// `Row` where a line is none that a row may have, and `Memory` where there is none left.
pub fn answer(rt: HostRuntime, lines: &[String]) -> Result<(), Failure> {
    let mut table = new_table(rt.alloc())?;
    answer_lines(rt, &mut table, lines)
}

/// Prints what comes of lines in a table.
fn answer_lines(rt: HostRuntime, table: &mut LayoutTable, lines: &[String]) -> Result<(), Failure> {
    for line in lines {
        answer_line(rt, table, line)?;
    }
    Ok(())
}

/// Prints what comes of a line: a change of the datatypes, or the answer to a question.
fn answer_line(rt: HostRuntime, table: &mut LayoutTable, line: &str) -> Result<(), Failure> {
    let (verb, rest) = word_and_rest(line);
    match verb {
        "type" => print_change(rt, table, line),
        "known" => print_known(rt, table.types(), rest),
        "signature" => print_signature(rt, table.types(), rest),
        "fits" => print_fits(rt, table.types(), rest),
        _ => Err(Failure::Row),
    }
}

/// Prints what comes of a line that changes the datatypes.
fn print_change(rt: HostRuntime, table: &mut LayoutTable, line: &str) -> Result<(), Failure> {
    match &change(rt.alloc(), table, line)? {
        Outcome::Made(name, id) => print_new(rt, table.types(), name, *id),
        Outcome::Committed => Ok(println!(rt; "= committed")?),
        Outcome::Freed => Ok(println!(rt; "= freed")?),
        Outcome::Refused(fault) => Ok(print_refused(rt, *fault)?),
    }
}
