//! Why the reading of the logs stopped before their ends.
ghost use Rattle.std.specs.Prelude.{◌≡◌};
ghost use Rattle.rma_audit.specs.declared.stop.Stop.TheVariants as stops;
ghost use Rattle.rma_audit.specs.inside.Progress.{stop_of};

use rma_base::Memory;
use rma_io::OpenFault;

/// Why the reading of the logs stopped before their ends.
#[derive(Clone, Copy, Debug, PartialEq, Eq)]
pub(crate) enum Stop {
    /// A log could not be opened or read.
    Fault,
    /// More bytes were taken than are allowed.
    TooLarge { bytes: u64 },
    /// Memory ran out.
    Memory,
}

impl From<Memory> for Stop {
    ghost from_gives = { λ _ stop. stop ≡ stops.Memory };

    fn from(_memory: Memory) -> Stop {
        Stop::Memory
    }
}

impl From<OpenFault> for Stop {
    ghost from_gives = { λ fault stop. stop ≡ stop_of fault };

    fn from(fault: OpenFault) -> Stop {
        match fault {
            OpenFault::Failed => Stop::Fault,
            OpenFault::Memory => Stop::Memory,
        }
    }
}
