//! The questions of rows.
use crate::faults::{Faults, print_with};
use crate::report::print_output;
use rma_table::{Failure, number};
use std::alloc::Global;

/// What stands for the empty word.
const EMPTY: &str = "''";

/// Prints the answer to each question of a row with these logs.
///
/// # Errors
///
/// `Row` where one is no question, and `Memory` where there is none left.
pub fn answer(rt: HostRuntime, logs: &[String], asked: &[String]) -> Result<(), Failure> {
    for question in asked {
        answer_one(rt, logs, question)?;
    }
    Ok(())
}

/// Prints the answer to a question: `words WORD..` what other words answer and write, `reads NUMBER..` what an audit does where these
/// calls of the source fail, and `writes NUMBER,BYTES..` where these puts do.
fn answer_one(rt: HostRuntime, logs: &[String], question: &str) -> Result<(), Failure> {
    match question.split_once(' ') {
        Some(("words", rest)) => print_output(rt, &words_in(rt.alloc(), rest)?, logs),
        Some(("reads", rest)) => answer_reads(rt, logs, &numbers_in(rt.alloc(), rest)?),
        Some(("writes", rest)) => answer_writes(rt, logs, &puts_in(rt.alloc(), rest)?),
        None if question == "words" => print_output(rt, &[], logs),
        _ => Err(Failure::Row),
    }
}

/// Prints what an audit does where these calls of the source fail.
fn answer_reads(rt: HostRuntime, logs: &[String], reads: &[u32]) -> Result<(), Failure> {
    print_with(rt, logs, Faults { reads, writes: &[] })
}

/// Prints what an audit does where these puts fail.
fn answer_writes(rt: HostRuntime, logs: &[String], writes: &[(u32, u32)]) -> Result<(), Failure> {
    print_with(rt, logs, Faults { reads: &[], writes })
}

/// The words of a text, of which one is empty where two quotation marks stand.
fn words_in(alloc: Global, text: &str) -> Result<Vec<String>, Failure> {
    let mut words = Vec::new(alloc);
    for word in text.split(' ') {
        let meant = if word == EMPTY { "" } else { word };
        words.push(String::from_str(alloc, meant)?)?;
    }
    Ok(words)
}

/// The numbers of a text.
fn numbers_in(alloc: Global, text: &str) -> Result<Vec<u32>, Failure> {
    let mut numbers = Vec::new(alloc);
    for word in text.split(' ') {
        numbers.push(number(word)?)?;
    }
    Ok(numbers)
}

/// The puts of a text, each a number and how many bytes it keeps.
fn puts_in(alloc: Global, text: &str) -> Result<Vec<(u32, u32)>, Failure> {
    let mut puts = Vec::new(alloc);
    for word in text.split(' ') {
        puts.push(put_in(word)?)?;
    }
    Ok(puts)
}

/// The put of a word.
fn put_in(word: &str) -> Result<(u32, u32), Failure> {
    match word.split_once(',') {
        Some((put, bytes)) => Ok((number(put)?, number(bytes)?)),
        None => Err(Failure::Row),
    }
}
