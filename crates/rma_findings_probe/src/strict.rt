//! What a strict audit finds in a row.
use crate::audits::strict_findings_of;
use rma_report::{Finding, StrictFault};
use rma_table::Failure;
use std::io;

/// Prints what a strict audit finds in some logs.
///
/// # Errors
///
/// `Row` where they are no logs of a run, and `Memory` where there is none left.
pub fn answer(rt: HostRuntime, logs: &[String]) -> Result<(), Failure> {
    let findings = strict_findings_of(rt.alloc(), logs)?;
    if findings.list.is_empty() {
        println!(rt; "= clean")?;
    }
    for finding in findings.list.as_slice() {
        print_finding(rt, finding)?;
    }
    Ok(())
}

/// Prints a finding: a fault that a strict audit finds as the report has it, and any other one in a word.
fn print_finding(rt: HostRuntime, finding: &Finding) -> io::Result<()> {
    match finding {
        Finding::Malformed { .. } => println!(rt; "= malformed"),
        Finding::Mismatch(_) => println!(rt; "= mismatch"),
        Finding::Impossible { .. } => println!(rt; "= impossible"),
        Finding::Epoch { .. } => println!(rt; "= epoch"),
        Finding::Pair(_) => println!(rt; "= pair"),
        Finding::Strict(fault) => print_fault(rt, fault),
    }
}

/// Prints a fault that a strict audit finds.
fn print_fault(rt: HostRuntime, fault: &StrictFault) -> io::Result<()> {
    print!(rt;
        "= strict {} rank {} line {}",
        fault.reason.word(),
        fault.rank.0,
        fault.line.0
    )?;
    if let Some((rank, line)) = fault.other {
        print!(rt; " with rank {} line {}", rank.0, line.0)?;
    }
    println!(rt; "")
}
