//! How the program ends: its exit number, and its line on standard error.
ghost use Rattle.std.specs.Prelude.{◌≡◌};
ghost use Rattle.rma_cli.specs.Exit.{exit_number_of};

use rma_audit::Status;
use std::io;

/// The exit number of an answer.
pub fn exit_number(status: Status) -> u8
    ensures { result ≡ exit_number_of status }
{
    match status {
        Status::Clean => 0,
        Status::Findings => 1,
        Status::Usage => 2,
        Status::ReadFault { recorded: _ } => 3,
        Status::WriteFault => 4,
        Status::TooLarge { bytes: _ } => 5,
        Status::Memory => 6,
    }
}

/// Says on standard error why there is no report, or no whole one.
///
/// # Errors
///
/// Standard error could not be written.
pub fn complain(rt: &impl Eprint, status: Status) -> io::Result<()> {
    match status {
        Status::Clean | Status::Findings => Ok(()),
        Status::Usage => eprintln!(rt; "usage"),
        Status::ReadFault { recorded } => eprintln!(rt; "read-fault {recorded}"),
        Status::WriteFault => eprintln!(rt; "write-fault"),
        Status::TooLarge { bytes: _ } => eprintln!(rt; "too-large"),
        Status::Memory => eprintln!(rt; "memory"),
    }
}
