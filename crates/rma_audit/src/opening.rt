//! Opening the logs of a run.
ghost use Rattle.std.specs.Prelude.{◌≡◌, ◌^◌, ◌<◌, length, map, string_bytes, OnOk, OnErr, IsErrOf};
ghost use Rattle.rma_io.specs.Count.{Rose};
ghost use Rattle.rma_audit.specs.Answers.{IsFresh, OpensSome};
ghost use Rattle.rma_audit.specs.inside.Opening.{HasOpened};

use rma_io::{Logs, OpenFault};

/// Opens the logs of these names in order, up to the first that is refused.
pub(crate) fn open_all<L: Logs>(logs: &mut L, names: &[String]) -> Result<(), OpenFault>
    requires fresh { IsFresh (L.source logs.old) (L.opened logs.old) }
    requires few { length names.now < 2 ^ 32 }
    ensures all { OnOk result (HasOpened (L.source logs.old) (L.source logs.new) (L.opened logs.new) (map string_bytes names.now)) }
    ensures some { OnErr result (OpensSome (map string_bytes names.now) (L.opened logs.new)) }
    ensures taken { (L.source logs.new).taken ≡ (L.source logs.old).taken }
    ensures failed { IsErrOf result OpenFault.Failed → Rose (L.source logs.old).faults (L.source logs.new).faults }
{
    for name in names {
        logs.open(name.as_str())?;
    }
    Ok(())
}
