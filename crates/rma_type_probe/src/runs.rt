//! The sets of bytes that rows give, and their texts.
ghost use Rattle.std.specs.Prelude.{IfOk};
ghost use Rattle.rma_bytes.specs.Runs.{IsInBounds};

use crate::integers::{signed, unsigned};
use rma_bytes::{Run, Runs};
use rma_table::Failure;
use std::alloc::Global;

/// The bytes of a set lie from minus this number to it.
pub const BOUND: i64 = 1 << 49;

/// The set of the bytes of blocks, which stand as `START+LENGTH` with blanks between them.
///
/// # Errors
///
/// `Row` where a word is none, or its bytes are none that a set may have; and `Memory` where there is none left.
pub fn set_in(alloc: Global, words: &str) -> Result<Runs, Failure> {
    let mut blocks = Vec::new(alloc);
    'words: for word in words.split_whitespace() {
        blocks.push(block_in(word)?)?;
    }
    Ok(Runs::from_blocks(alloc, blocks.as_slice())?)
}

/// The block that a word is.
fn block_in(word: &str) -> Result<Run, Failure>
    ensures { IfOk result IsInBounds }
{
    let run = run_in(word)?;
    if run.start < -BOUND || run.start > BOUND || run.len > (BOUND - run.start) as u64 {
        return Err(Failure::Row);
    }
    Ok(run)
}

/// The run that a word is, anywhere.
///
/// # Errors
///
/// `Row` where it is none.
pub fn run_in(word: &str) -> Result<Run, Failure> {
    let Some((start, len)) = word.split_once('+') else {
        return Err(Failure::Row);
    };
    Ok(Run {
        start: signed(start)?,
        len: unsigned(len)?,
    })
}

/// The runs of a set, or that it has none.
///
/// # Errors
///
/// `Memory` where there is none left.
pub fn text_of(alloc: Global, runs: &Runs) -> Result<String, Failure> {
    let mut text = String::new(alloc);
    if runs.is_empty() {
        text.push_str("none")?;
    }
    push_runs(&mut text, runs)?;
    Ok(text)
}

/// Appends the runs of a set.
fn push_runs(text: &mut String, runs: &Runs) -> Result<(), Failure> {
    for index in 0..runs.len() {
        push_run(text, index, runs.get(index))?;
    }
    Ok(())
}

/// Appends a run, behind a blank where it is not the first of its list.
///
/// # Errors
///
/// `Memory` where there is none left.
pub fn push_run(text: &mut String, index: usize, run: Run) -> Result<(), Failure> {
    let before = if index == 0 { "" } else { " " };
    Ok(write!(text, "{before}{}+{}", run.start, run.len)?)
}
