//! A sink in memory, which can be told to fail.
ghost use Rattle.std.specs.Prelude.{◌≡◌, ◌∷◌, MatchOption, vec_len};
ghost use Rattle.rma_io.specs.Buffer.{IsBuffer};
ghost use Rattle.rma_io.specs.Sink.{IsPut};
ghost use Rattle.rma_io.specs.MemorySink.{unwritten, output_of, IsMemoryPut, GoesWell, FailsAfter};

use crate::buffer::Buffer;
use crate::sink::Sink;
use crate::source::Failed;
use std::marker::Model;

/// A sink that fails where it is told to. It keeps the first bytes of those that are written, as far as the room that it
/// is given holds them; what was written is known as long as all of it fits.
#[derive(Drop)]
pub struct MemorySink {
    buffer: Buffer,
    // The numbers of the puts that fail, each with the number of bytes after which it fails.
    fails: Vec<(u32, u32)>,
    // The number of the next put.
    puts: u64,
    faults: u64,
}

impl Model for MemorySink {
    ghost use Rattle.rma_io.specs.MemorySink.{MemoryOutput};

    ghost Value = { MemoryOutput };

    ghost view = { λ a. record { buffer = a.buffer; fails = a.fails.items; puts = a.puts; faults = a.faults } };
}

/// After how many bytes the put of this number fails, if it is to fail.
fn planned(fails: &[(u32, u32)], number: u64) -> Option<u32>
    ensures { MatchOption result (GoesWell fails.now number) (FailsAfter fails.now number) }
{
    for fail in fails {
        if u64::from(fail.0) == number {
            return Some(fail.1);
        }
    }
    None
}

impl MemorySink {
    /// A sink that nothing was written to. What `room` holds is written over, and its length stays. A pair `(n, p)`
    /// of `fails` makes the n-th put from 0 write the first `p` bytes at most and fail; of several such pairs the
    /// first counts.
    pub fn new(room: Vec<u8>, fails: Vec<(u32, u32)>) -> MemorySink
        ensures { result ≡ unwritten (vec_len room) fails.items }
    {
        MemorySink {
            buffer: Buffer::new(room),
            fails,
            puts: 0,
            faults: 0,
        }
    }

    /// The first bytes that were written, as far as they fit.
    pub fn kept(&self) -> &[u8]
        ensures kept { result.now ≡ self.now.buffer.kept }
        ensures buffer { IsBuffer self.now.buffer }
    {
        self.buffer.kept()
    }
}

impl Sink for MemorySink {
    ghost output = { output_of };

    fn put(&mut self, piece: &[u8]) -> Result<(), Failed>
        ensures put { IsPut (output_of self.old) piece.now result (output_of self.new) }
        ensures exactly { IsMemoryPut self.old piece.now result self.new }
    {
        let plan = planned(&self.fails, self.puts);
        self.puts = self.puts.saturating_add(1);
        let Some(most) = plan else {
            self.buffer.pass(piece);
            return Ok(());
        };
        self.buffer.pass(&piece[..(most as usize).min(piece.len())]);
        self.faults = self.faults.saturating_add(1);
        Err(Failed)
    }
}
