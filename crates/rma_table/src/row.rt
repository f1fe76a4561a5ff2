//! The rows of a table.
use crate::failure::Failure;
use std::alloc::Global;

/// A row of a table.
#[derive(Drop)]
pub struct Row {
    /// The name.
    pub name: String,
    /// The lines that it gives.
    pub lines: Vec<String>,
}

/// The rows of a table.
///
/// # Errors
///
/// `Row` where a line stands before the first row, and `Memory` where there is none left.
pub fn rows_of(alloc: Global, text: &str) -> Result<Vec<Row>, Failure> {
    let mut rows = Vec::new(alloc);
    for line in text.lines() {
        if let Some(name) = line.strip_prefix("row ") {
            rows.push(Row::named(alloc, name)?)?;
        } else if !is_passed_over(line) {
            push_line(alloc, rows.last_mut(), line)?;
        }
    }
    Ok(rows)
}

impl Row {
    /// A row of this name, without lines.
    fn named(alloc: Global, name: &str) -> Result<Row, Failure> {
        Ok(Row {
            name: String::from_str(alloc, name)?,
            lines: Vec::new(alloc),
        })
    }
}

/// Adds a line to a row.
fn push_line(alloc: Global, row: Option<&mut Row>, line: &str) -> Result<(), Failure> {
    match row {
        Some(row) => Ok(row.lines.push(String::from_str(alloc, line)?)?),
        None => Err(Failure::Row),
    }
}

/// Whether a line of a table gives nothing: it is empty, a comment, or says what is wanted.
fn is_passed_over(line: &str) -> bool {
    line.is_empty() || line.starts_with('#') || line.starts_with('=')
}

/// The number that a word is.
///
/// # Errors
///
/// `Row` where it is none.
pub fn number(word: &str) -> Result<u32, Failure> {
    match word.parse::<u32>() {
        Ok(number) => Ok(number),
        Err(_) => Err(Failure::Row),
    }
}
