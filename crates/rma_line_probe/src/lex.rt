//! The lines of texts, and the fields of lines.
use crate::cut::lines_in_pieces;
use crate::escaped::push_escaped;
use crate::words::word_and_rest;
use rma_base::limits::LINE;
use rma_lex::{Token, tokens};
use rma_table::{Failure, number, unescaped};
use std::alloc::Global;

/// A text comes also in pieces of each size up to this one.
const PIECES: usize = 1_000;

/// A long text comes also in pieces of this size.
const LONG_PIECE: usize = 65_536;

/// Prints what each line of a row asks: behind `text` the lines of a text with backslashes, behind `long` those of a line of so many
/// bytes and of one more, and behind `line` the fields of a line with backslashes.
///
/// # Errors
///
/// `Row` where it asks something else, and `Memory` where there is none left.
pub fn answer(rt: HostRuntime, lines: &[String]) -> Result<(), Failure> {
    for line in lines {
        let (asked, text) = word_and_rest(line);
        answer_line(rt, asked, text)?;
    }
    Ok(())
}

/// Prints what a line of a row asks of what stands behind its first word.
fn answer_line(rt: HostRuntime, asked: &str, given: &str) -> Result<(), Failure> {
    match asked {
        "text" => print_lines(rt, &unescaped(rt.alloc(), given)?),
        "long" => print_long(rt, &long_text(rt.alloc(), given)?),
        "line" => print_fields(rt, &unescaped(rt.alloc(), given)?),
        _ => Err(Failure::Row),
    }
}

/// Prints the lines of a text, which are the same in whatever pieces it comes.
fn print_lines(rt: HostRuntime, text: &[u8]) -> Result<(), Failure> {
    let whole = lines_in_pieces(rt.alloc(), text, text.len())?;
    print!(rt; "{whole}")?;
    for size in 1..=text.len().min(PIECES) {
        print_difference(rt, text, size, &whole)?;
    }
    Ok(())
}

/// Prints the lines of a long text.
fn print_long(rt: HostRuntime, text: &[u8]) -> Result<(), Failure> {
    let whole = lines_in_pieces(rt.alloc(), text, text.len())?;
    print!(rt; "{whole}")?;
    print_difference(rt, text, LONG_PIECE, &whole)
}

/// Prints that the lines of a text are others than these where it comes in pieces of a size, if they are.
fn print_difference(rt: HostRuntime, text: &[u8], size: usize, whole: &str) -> Result<(), Failure> {
    let other = lines_in_pieces(rt.alloc(), text, size)?;
    if other.as_str() != whole {
        println!(rt; "= in pieces of {size}: another answer")?;
    }
    Ok(())
}

/// A line of as many bytes as a word says, and one more.
fn long_text(alloc: Global, length: &str) -> Result<Vec<u8>, Failure> {
    let length = number(length)? as usize;
    if length > 4 * LINE {
        return Err(Failure::Row);
    }
    let mut text = vec![in alloc; b'a'; length]?;
    text.extend_from_slice(b"\nend\n")?;
    Ok(text)
}

/// Prints the fields of a line, each behind its position.
fn print_fields(rt: HostRuntime, line: &[u8]) -> Result<(), Failure> {
    let fields = fields_of(rt.alloc(), line)?;
    if fields.is_empty() {
        println!(rt; "= no fields")?;
    } else {
        println!(rt; "={fields}")?;
    }
    Ok(())
}

/// The fields of a line, each behind a blank and its position.
fn fields_of(alloc: Global, line: &[u8]) -> Result<String, Failure> {
    let mut fields = String::new(alloc);
    for token in tokens(line) {
        push_field(&mut fields, token)?;
    }
    Ok(fields)
}

/// Appends a field behind a blank and its position.
fn push_field(fields: &mut String, token: Token<'_>) -> Result<(), Failure> {
    write!(fields, " {}:", token.start)?;
    push_escaped(fields, token.text)
}
