//! Reports, and in which ways of reading the logs another one is written.
use crate::answer::{Answer, word_of};
use crate::faults::Faults;
use crate::names::audit_of;
use crate::order::Order;
use crate::run::{answered, surely_answered};
use rma_audit::Status;
use rma_table::Failure;

/// Prints the report of an audit of some logs, behind its first line, and in which ways of reading them there is another answer.
///
/// # Errors
///
/// `Row` where there are too many logs, and `Memory` where there is none left.
pub fn answer(rt: HostRuntime, logs: &[String]) -> Result<(), Failure> {
    let words = audit_of(rt.alloc(), logs.len())?;
    let whole = answered(rt.alloc(), &words, logs, Order::RankByRank, Faults::none())?;
    print_status(rt, &whole)?;
    print_lines(rt, whole.text.as_str(), 1)?;
    print_others(rt, &words, logs, &whole)
}

/// Prints what some words answer over the logs, and all that they write.
///
/// # Errors
///
/// `Row` where there are too many logs, and `Memory` where there is none left.
pub fn print_output(rt: HostRuntime, words: &[String], logs: &[String]) -> Result<(), Failure> {
    let whole = answered(rt.alloc(), words, logs, Order::RankByRank, Faults::none())?;
    print_status(rt, &whole)?;
    print_lines(rt, whole.text.as_str(), 0)
}

/// Prints the status, where the report does not say it.
fn print_status(rt: HostRuntime, answer: &Answer) -> Result<(), Failure> {
    match answer.status {
        Status::Clean | Status::Findings => {}
        status => println!(rt; "= {}", word_of(status))?,
    }
    if !answer.agrees() {
        println!(rt; "= the status is another")?;
    }
    Ok(())
}

/// Prints the lines of a text behind so many.
fn print_lines(rt: HostRuntime, text: &str, behind: usize) -> Result<(), Failure> {
    for line in text.lines().skip(behind) {
        println!(rt; "= {line}")?;
    }
    Ok(())
}

/// Prints in which ways of reading the logs there is another answer than this one.
fn print_others(
    rt: HostRuntime,
    words: &[String],
    logs: &[String],
    whole: &Answer,
) -> Result<(), Failure> {
    let alloc = rt.alloc();
    let bytes = answered(alloc, words, logs, Order::ByteByByte, Faults::none())?;
    print_other(rt, "one byte at a time", &bytes, whole)?;
    let last = answered(alloc, words, logs, Order::LastRankFirst, Faults::none())?;
    print_other(rt, "last rank first", &last, whole)?;
    let sure = surely_answered(alloc, words, logs)?;
    print_other(rt, "logs that cannot fail", &sure, whole)
}

/// Prints the way in which an answer came about, where it is another than it should be.
fn print_other(rt: HostRuntime, way: &str, other: &Answer, whole: &Answer) -> Result<(), Failure> {
    if !other.is(whole) {
        println!(rt; "= {way}: another answer")?;
    }
    Ok(())
}
