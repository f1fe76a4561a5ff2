//! What logs come to.
use crate::given::GivenLog;
use crate::read::{end_by_stops, end_in_pieces, print_fault};
use rma_book::{BookEnd, FormFault};
use rma_table::Failure;
use std::io;

/// What a log comes to.
#[derive(Clone, Copy, Debug, PartialEq, Eq)]
enum Outcome {
    /// It records so many calls.
    Calls(usize),
    /// This is its first bad line.
    Bad(FormFault),
}

/// Prints what a log comes to, which is the same where it comes one byte at a time.
///
/// # Errors
///
/// `Row` where the log is longer than one may be, and `Memory` where there is none left.
pub fn print_outcome(rt: HostRuntime, log: &GivenLog) -> Result<(), Failure> {
    let outcome = outcome_of(&end_by_stops(rt, log)?);
    print(rt, outcome)?;
    if outcome_of(&end_in_pieces(rt.alloc(), log, 1)?) != outcome {
        println!(rt; "= one byte at a time: another outcome")?;
    }
    Ok(())
}

/// What a log comes to that ends so.
fn outcome_of(end: &BookEnd) -> Outcome {
    match end {
        BookEnd::Calls(own) => Outcome::Calls(own.calls().len()),
        BookEnd::Fault(fault) => Outcome::Bad(*fault),
    }
}

/// Prints an outcome.
fn print(rt: HostRuntime, outcome: Outcome) -> io::Result<()> {
    print!(rt; "= ")?;
    match outcome {
        Outcome::Calls(count) => print!(rt; "{count} calls")?,
        Outcome::Bad(fault) => print_fault(rt, fault)?,
    }
    println!(rt; "")
}
