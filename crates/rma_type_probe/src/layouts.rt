//! Which bytes buffers cover.
use crate::datatype::find;
use crate::layout::{Buffer, print_layout};
use crate::table::{Outcome, change, new_table, print_refused};
use crate::words::word_and_rest;
use rma_layout::LayoutTable;
use rma_table::Failure;

/// Prints which bytes the buffers of a row cover, in one table of datatypes, which lines of the row change.
///
/// # Errors
///
/// `Row` where a line is none that a row may have, and `Memory` where there is none left.
pub fn answer(rt: HostRuntime, lines: &[String]) -> Result<(), Failure> {
    let mut table = new_table(rt.alloc())?;
    answer_lines(rt, &mut table, lines)
}

/// Prints what comes of lines in a table.
fn answer_lines(rt: HostRuntime, table: &mut LayoutTable, lines: &[String]) -> Result<(), Failure> {
    for line in lines {
        answer_line(rt, table, line)?;
    }
    Ok(())
}

/// Prints why a line does not change the datatypes, where it does not, or which bytes a buffer covers.
fn answer_line(rt: HostRuntime, table: &mut LayoutTable, line: &str) -> Result<(), Failure> {
    let (verb, rest) = word_and_rest(line);
    match verb {
        "type" => print_fault(rt, table, line),
        "place" => print_place(rt, table, rest),
        _ => Err(Failure::Row),
    }
}

/// Changes the datatypes, or prints why that is refused.
fn print_fault(rt: HostRuntime, table: &mut LayoutTable, line: &str) -> Result<(), Failure> {
    match &change(rt.alloc(), table, line)? {
        Outcome::Refused(fault) => Ok(print_refused(rt, *fault)?),
        Outcome::Made(_, _) | Outcome::Committed | Outcome::Freed => Ok(()),
    }
}

/// Prints which bytes the buffer covers that words give, of which the first names the datatype.
fn print_place(rt: HostRuntime, table: &mut LayoutTable, words: &str) -> Result<(), Failure> {
    let (name, rest) = word_and_rest(words);
    let buffer = Buffer::of(rest)?;
    match find(rt.alloc(), table.types(), name)? {
        Some(id) => print_layout(rt, table, id, buffer),
        None => Ok(println!(rt; "= unknown")?),
    }
}
