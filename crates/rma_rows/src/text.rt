//! The words for parts of answers.
use rma_base::{Rank, Site};
use rma_book::FormFault;
use rma_rules::AccessName;
use std::io;

/// Prints the name of an access, and the place in the program where its call stands, where it is known.
pub fn print_named(rt: HostRuntime, name: AccessName, site: Option<&Site>) -> io::Result<()> {
    print!(rt; "{}:{}:{}", name.rank.0, name.line.0, name.role.word())?;
    match site {
        Some(site) => print!(rt; " @{}", site.text()),
        None => Ok(()),
    }
}

/// Prints the first bad line of the log of a rank.
pub fn print_fault(rt: HostRuntime, rank: Rank, fault: FormFault) -> io::Result<()> {
    println!(rt;
        "= malformed rank {} line {} reason {}",
        rank.0,
        fault.line.0,
        fault.reason.word()
    )
}
