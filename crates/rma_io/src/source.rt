//! Where logs come from.
ghost use Rattle.std.specs.Prelude.{◌≡◌, ℕ, ◌+◌, ◌^◌, ◌<◌, ◌≤◌, length};
ghost use Rattle.rma_io.specs.Source.{Source, Opened, IsPulled, IsOpened};

use thiserror::Error;

/// A read or a write failed. The object that answers it has counted the fault.
#[derive(Clone, Copy, Debug, PartialEq, Eq)]
pub struct Failed;

/// Why a name was not opened.
#[derive(Clone, Copy, Debug, PartialEq, Eq, Error)]
pub enum OpenFault {
    /// The source refused the name, and has counted the fault.
    #[error("refused")]
    Failed,
    /// Memory ran out.
    #[error("memory")]
    Memory,
}

/// What a pull answers.
#[derive(Clone, Copy, Debug, PartialEq, Eq)]
pub enum Pull {
    /// The next `len` bytes of the log of this rank stand at the start of the room.
    Bytes { rank: u32, len: usize },
    /// Nothing is left of any log.
    Done,
}

/// A source of the logs of one run, one log a rank, that are read in pieces.
pub trait Pulls {
    /// What is known of the bytes of each log, the number of bytes taken, and the count of faults.
    ghost source: { Self → Source };

    /// What stays whatever is pulled.
    ghost stays: { Self → Self → Type 0 };

    /// Reads the next bytes of one of the logs to the start of `room`. It answers from which log they come and how many
    /// they are, or `Done` where nothing is left of any log.
    ///
    /// # Errors
    ///
    /// `Failed` where a read failed: nothing was taken, and the count of faults rose.
    fn pull(&mut self, room: &mut [u8]) -> Result<Pull, Failed>
        requires room { 0 < length room.old }
        requires small { (source self.old).taken + length room.old ≤ 2 ^ 62 }
        ensures pulled { IsPulled (source self.old) room.new result (source self.new) }
        ensures stays { stays self.old self.new };
}

/// A source whose logs are opened by name.
pub trait Logs: Pulls {
    /// The names opened, and the name last refused.
    ghost opened: { Self → Opened };

    /// Opens the log of the next rank.
    ///
    /// # Errors
    ///
    /// `OpenFault::Failed` where the name was refused: it is then the name last refused, and the count of faults rose.
    /// `OpenFault::Memory` where memory ran out. After either the names are as before.
    fn open(&mut self, name: &str) -> Result<(), OpenFault>
        requires { length (opened self.old).names + 1 < 2 ^ 32 }
        ensures { IsOpened (Self.source self.old) (opened self.old) name.now result (Self.source self.new) (opened self.new) };

    /// There are as many logs as names.
    ghost one_log_a_name: { (s : Self) → length (Self.source s).logs ≡ length (opened s).names };

    /// No pull changes the names.
    ghost pulls_keep: { (a b : Self) → Self.stays a b → opened b ≡ opened a };
}
