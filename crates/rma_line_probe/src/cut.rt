//! Texts that are cut into lines.
ghost use Rattle.std.specs.Prelude.{◌≡◌, false};

use crate::escaped::push_escaped;
use rma_base::limits::FED;
use rma_lex::{LexFault, Line, LineCutter};
use rma_table::Failure;
use std::alloc::Global;

/// A line of more bytes is told by their number.
const SHOWN: usize = 1_000;

/// The lines of a text that comes in pieces of a size, each in a line of its own with its number, and how many there are.
///
/// # Errors
///
/// `Row` where the text is longer than one may be, and `Memory` where there is none left.
pub fn lines_in_pieces(alloc: Global, text: &[u8], size: usize) -> Result<String, Failure> {
    let mut cutter = LineCutter::new(alloc);
    let mut found = String::new(alloc);
    feed_pieces(&mut cutter, text, size, &mut found)?;
    cutter.close();
    take_lines(&mut cutter, &mut found)?;
    writeln!(found, "= {} lines", cutter.lines())?;
    Ok(found)
}

/// Feeds a cutter a text in pieces of a size, and takes the lines behind each.
fn feed_pieces(
    cutter: &mut LineCutter,
    text: &[u8],
    size: usize,
    found: &mut String,
) -> Result<(), Failure>
    requires { cutter.old.closed ≡ false }
{
    'pieces: for piece in text.chunks(size.max(1)) {
        feed(cutter, piece)?;
        take_lines(cutter, found)?;
        cutter.shorten();
    }
    Ok(())
}

/// Feeds a cutter a piece of a text.
fn feed(cutter: &mut LineCutter, piece: &[u8]) -> Result<(), Failure>
    requires { cutter.old.closed ≡ false }
    ensures { cutter.new.closed ≡ false }
{
    if piece.len() as u64 > FED - cutter.fed() {
        return Err(Failure::Row);
    }
    Ok(cutter.feed(piece)?)
}

/// Takes the lines that a cutter has.
fn take_lines(cutter: &mut LineCutter, found: &mut String) -> Result<(), Failure>
    ensures { cutter.new.closed ≡ cutter.old.closed }
{
    'lines: for _ in 0..u64::MAX {
        match cutter.next_line() {
            None => break,
            Some(Ok(line)) => push_line(found, line)?,
            Some(Err(fault)) => push_fault(found, fault)?,
        }
    }
    Ok(())
}

/// Appends the number of a line, and its text.
fn push_line(found: &mut String, line: Line<'_>) -> Result<(), Failure> {
    write!(found, "= {}:", line.no.0)?;
    if line.text.len() <= SHOWN {
        push_escaped(found, line.text)?;
    } else {
        write!(found, " {} bytes", line.text.len())?;
    }
    Ok(found.push('\n')?)
}

/// Appends the number of a bad line, and why it is bad.
fn push_fault(found: &mut String, fault: LexFault) -> Result<(), Failure> {
    Ok(writeln!(found, "= {}!{}", fault.no.0, fault.reason.word())?)
}
