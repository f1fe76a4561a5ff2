//! Where reports go.
ghost use Rattle.rma_io.specs.Sink.{Output, IsPut};

use crate::source::Failed;

/// A sink of bytes.
pub trait Sink {
    /// The bytes written, where they are known, and the count of faults.
    ghost output: { Self → Output };

    /// Writes the whole piece.
    ///
    /// # Errors
    ///
    /// `Failed` where the write failed: a prefix of the piece was written, and the count of faults rose.
    fn put(&mut self, piece: &[u8]) -> Result<(), Failed>
        ensures { IsPut (output self.old) piece.now result (output self.new) };
}
