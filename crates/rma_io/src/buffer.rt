//! The buffer that the sinks in memory write.
ghost use Rattle.std.specs.Prelude.{◌≡◌, ◌≤◌, length, min, vec_len};
ghost use Rattle.rma_io.specs.Buffer.{empty, after_passing, IsBuffer};

use crate::piece::copy_from;
use std::marker::Model;

/// The first bytes of those passed on, as far as they fit, and how many were passed on.
#[derive(Drop)]
pub struct Buffer {
    // What was passed on is copied here until it is full; the length stays.
    room: Vec<u8>,
    // How many bytes were passed on, also those that found no room.
    passed: u64,
}

impl Model for Buffer {
    ghost use Rattle.std.specs.Prelude.{◌≤◌, ◌<◌, ◌^◌, take, vec_len};
    ghost use Rattle.rma_io.specs.Buffer.{Buffer};

    ghost Value = { Buffer };

    ghost view = { λ a. record { size = vec_len a.room; kept = take a.passed a.room.items; passed = a.passed } };
}

/// How many bytes of the room are filled after this number was passed on.
fn filled(room: &[u8], passed: u64) -> usize
    ensures { result ≡ min passed (length room.now) }
{
    passed.min(room.len() as u64) as usize
}

impl Buffer {
    /// An empty buffer over this room, whose bytes are written over.
    pub fn new(room: Vec<u8>) -> Buffer
        ensures { result ≡ empty (vec_len room) }
    {
        Buffer { room, passed: 0 }
    }

    /// The first of the bytes passed on.
    pub fn kept(&self) -> &[u8]
        ensures kept { result.now ≡ self.now.kept }
        ensures buffer { IsBuffer self.now }
    {
        &self.room[..filled(&self.room, self.passed)]
    }

    /// Passes a piece on to the buffer, which keeps what fits of it.
    pub fn pass(&mut self, piece: &[u8])
        ensures passed { self.new ≡ after_passing piece.now self.old }
        ensures buffer { IsBuffer self.old }
    {
        let at = filled(&self.room, self.passed);
        let fitting = piece.len().min(self.room.len() - at);
        copy_from(&mut self.room, at, &piece[..fitting]);
        self.passed = self.passed.saturating_add(piece.len() as u64);
    }
}
