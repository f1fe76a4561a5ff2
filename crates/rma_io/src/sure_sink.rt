//! A sink in memory that never fails.
ghost use Rattle.std.specs.Prelude.{◌≡◌, vec_len};
ghost use Rattle.rma_io.specs.Buffer.{empty, IsBuffer};
ghost use Rattle.rma_io.specs.Sink.{IsPut};
ghost use Rattle.rma_io.specs.SureSink.{output_of, IsSurePut};

use crate::buffer::Buffer;
use crate::sink::Sink;
use crate::source::Failed;
use std::marker::Model;

/// A sink that never fails. It keeps the first bytes of those that are written, as far as the room that it is given holds
/// them; what was written is known as long as all of it fits.
#[derive(Drop)]
pub struct SureSink {
    buffer: Buffer,
}

impl Model for SureSink {
    ghost use Rattle.rma_io.specs.Buffer.{Buffer};

    ghost Value = { Buffer };

    ghost view = { λ a. a.buffer };
}

impl SureSink {
    /// A sink that nothing was written to. What `room` holds is written over, and its length stays.
    pub fn new(room: Vec<u8>) -> SureSink
        ensures { result ≡ empty (vec_len room) }
    {
        SureSink {
            buffer: Buffer::new(room),
        }
    }

    /// The first bytes that were written, as far as they fit.
    pub fn kept(&self) -> &[u8]
        ensures kept { result.now ≡ self.now.kept }
        ensures buffer { IsBuffer self.now }
    {
        self.buffer.kept()
    }
}

impl Sink for SureSink {
    ghost output = { output_of };

    fn put(&mut self, piece: &[u8]) -> Result<(), Failed>
        ensures put { IsPut (output_of self.old) piece.now result (output_of self.new) }
        ensures exactly { IsSurePut self.old piece.now result self.new }
    {
        self.buffer.pass(piece);
        Ok(())
    }
}
