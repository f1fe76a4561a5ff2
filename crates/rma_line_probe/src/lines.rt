//! What lines state.
use crate::words::word_and_rest;
use rma_base::{FormReason, Version};
use rma_form::line_of;
use rma_parse::{ParseError, Stated, Texts, parse_line};
use rma_table::{Failure, unescaped};
use std::alloc::Global;

/// What is read in a line.
#[derive(Drop)]
enum Reading {
    /// It states nothing.
    Nothing,
    /// It is bad, for this reason first.
    Bad(FormReason),
    /// It states something.
    Good(Box<Stated>),
}

/// Prints what each line of a row states, of which a line gives the version of its log and, behind a blank, its text with backslashes.
///
/// # Errors
///
/// `Row` where it does not, and `Memory` where there is none left.
pub fn answer(rt: HostRuntime, lines: &[String]) -> Result<(), Failure> {
    for line in lines {
        let (version, text) = word_and_rest(line);
        answer_line(rt, version_of(version)?, &unescaped(rt.alloc(), text)?)?;
    }
    Ok(())
}

/// The version that a word is.
fn version_of(word: &str) -> Result<Version, Failure> {
    match word {
        "1" => Ok(Version::One),
        "2" => Ok(Version::Two),
        _ => Err(Failure::Row),
    }
}

/// Prints what a line of a log of a version states: its canonical line, or nothing; or the first reason for which it is bad.
fn answer_line(rt: HostRuntime, version: Version, line: &[u8]) -> Result<(), Failure> {
    match &read_line(rt.alloc(), version, line)? {
        Reading::Nothing => Ok(println!(rt; "= nothing")?),
        Reading::Bad(reason) => Ok(println!(rt; "= {}", reason.word())?),
        Reading::Good(stated) => print_stated(rt, version, stated),
    }
}

/// Reads a line of a log of a version.
fn read_line(alloc: Global, version: Version, line: &[u8]) -> Result<Reading, Failure> {
    let mut texts = Texts::new(alloc);
    match parse_line(&mut texts, version, line) {
        Ok(Some(stated)) => Ok(Reading::Good(Box::new(alloc, stated)?)),
        Ok(None) => Ok(Reading::Nothing),
        Err(ParseError::Fault(fault)) => Ok(Reading::Bad(fault.reason)),
        Err(ParseError::Memory) => Err(Failure::Memory),
    }
}

/// Prints the canonical line of what a line states, which is to state that again.
fn print_stated(rt: HostRuntime, version: Version, stated: &Stated) -> Result<(), Failure> {
    let line = line_of(rt.alloc(), stated)?;
    println!(rt; "= {line}")?;
    let again = read_line(rt.alloc(), version, line.as_bytes())?;
    if !is_written(rt.alloc(), &again, &line)? {
        println!(rt; "= not read back")?;
    }
    Ok(())
}

/// Whether what is read in a line is written as this one.
fn is_written(alloc: Global, reading: &Reading, line: &str) -> Result<bool, Failure> {
    match reading {
        Reading::Good(stated) => Ok(line_of(alloc, stated)?.as_str() == line),
        Reading::Nothing | Reading::Bad(_) => Ok(false),
    }
}
