//! Standard output as a sink.
ghost use Rattle.std.specs.Prelude.{◌≡◌, ◌≤◌, OnOk, OnErr, length, take};
ghost use Rattle.std.specs.Io.KnownBytes.{Appends};
ghost use Rattle.rma_io.specs.Count.{raised};
ghost use Rattle.rma_cli.specs.Printed.{unprinted, AppendsPiece};

use rma_io::{Failed, Sink};
use std::io::{ErrorKind, Write};
use std::marker::Model;
use std::time::{Clock, Duration};

/// How often one put waits for an output that is not ready.
const WAITS: u32 = 10_000;

/// How long one such wait is, in milliseconds.
const WAIT: u64 = 1;

/// An output of the process, with how many bytes it took. It keeps no buffer: what a put answers is true of the bytes
/// themselves.
#[derive(Drop)]
pub struct StandardOutput<W: Write + Drop, C: Clock + Drop> {
    output: W,
    clock: C,
    // How many bytes were written by the puts that did not fail.
    taken: u64,
    faults: u64,
}

impl<W: Write + Drop, C: Clock + Drop> Model for StandardOutput<W, C> {
    ghost use Rattle.rma_cli.specs.Printed.{Printed};

    ghost Value = { Printed };

    ghost view = { λ s. record { written = W.contents s.output; taken = s.taken; faults = s.faults } };
}

impl<W: Write + Drop, C: Clock + Drop> StandardOutput<W, C> {
    /// The output, which took nothing yet.
    pub fn new(output: W, clock: C) -> Self
        ensures { result ≡ unprinted (W.contents output) }
    {
        StandardOutput {
            output,
            clock,
            taken: 0,
            faults: 0,
        }
    }
}

/// Whether a write that failed so may go well a little later.
fn may_pass(kind: ErrorKind) -> bool {
    matches!(kind, ErrorKind::WouldBlock | ErrorKind::Interrupted)
}

/// Writes the piece as far as the output takes it, and answers how many bytes it took.
fn write_on<W: Write, C: Clock>(output: &mut W, clock: &C, piece: &[u8]) -> usize
    ensures within { result ≤ length piece.now }
    ensures bytes { Appends (W.contents output.old) (W.contents output.new) (take result piece.now) }
{
    let mut written = 0;
    let mut waits = 0;
    while written < piece.len() && waits < WAITS {
        match output.write(&piece[written..]) {
            Ok(0) => break,
            Ok(len) => written += len,
            Err(error) if may_pass(error.kind()) => {
                waits += 1;
                clock.sleep(Duration::from_millis(WAIT));
            }
            Err(_) => break,
        }
    }
    written
}

impl<W: Write + Drop, C: Clock + Drop> Sink for StandardOutput<W, C> {
    ghost use Rattle.rma_cli.specs.Printed.{output_of};
    ghost use Rattle.rma_io.specs.Sink.{IsPut};

    ghost output = { output_of };

    fn put(&mut self, piece: &[u8]) -> Result<(), Failed>
        ensures put { IsPut (output_of self.old) piece.now result (output_of self.new) }
        ensures written { AppendsPiece piece.now result self.old.written self.new.written }
        ensures taken { OnOk result (self.new.taken ≡ raised self.old.taken (length piece.now)) }
        ensures refused { OnErr result (self.new.taken ≡ self.old.taken) }
    {
        let written = write_on(&mut self.output, &self.clock, piece);
        if written < piece.len() {
            self.faults = self.faults.saturating_add(1);
            return Err(Failed);
        }
        self.taken = self.taken.saturating_add(piece.len() as u64);
        Ok(())
    }
}
