//! The epochs that calls open.
ghost use Rattle.std.specs.Prelude.{◌≡◌, IfOk};
ghost use Rattle.rma_call.specs.declared.what.What.TheVariants.{Sync};
ghost use Rattle.rma_call.specs.declared.what.SyncCall.TheVariants as sync;
ghost use Rattle.rma_open.specs.Open.{is_exclusive};
ghost use Rattle.rma_epoch.specs.Table.{opened_on};

use crate::epoch::{Epoch, Targets};
use rma_base::Memory;
use rma_call::{EpochCall, LockKind};
use rma_open::EpochKind;
use rma_window::WindowId;

/// The epoch that the call of this number opens on this window of the run, if it opens one.
pub(crate) fn opened(
    opener: u32,
    call: &EpochCall,
    window: WindowId,
) -> Result<Option<Epoch>, Memory>
    ensures { IfOk result (λ epoch. epoch ≡ opened_on opener (Sync (sync.Epoch call.now)) window) }
{
    let (kind, targets) = match call {
        EpochCall::Fence { assertions, .. } => {
            if assertions.nosucceed {
                return Ok(None);
            }
            (EpochKind::Fence, Targets::All)
        }
        EpochCall::Post { origins, .. } => (EpochKind::Post, Targets::Group(origins.copy()?)),
        EpochCall::Start { targets, .. } => (EpochKind::Start, Targets::Group(targets.copy()?)),
        EpochCall::Lock { target, kind, .. } => (lock_of(*kind), Targets::One(*target)),
        EpochCall::LockAll { .. } => (EpochKind::LockAll, Targets::All),
        EpochCall::Complete { .. } => return Ok(None),
        EpochCall::Expwait { .. } => return Ok(None),
        EpochCall::Unlock { .. } => return Ok(None),
        EpochCall::UnlockAll { .. } => return Ok(None),
        EpochCall::Flush { .. } => return Ok(None),
        EpochCall::FlushAll { .. } => return Ok(None),
        EpochCall::FlushLocal { .. } => return Ok(None),
        EpochCall::FlushLocalAll { .. } => return Ok(None),
        EpochCall::Sync { .. } => return Ok(None),
    };
    Ok(Some(Epoch {
        kind,
        window,
        targets,
        opener,
        close: None,
    }))
}

/// The kind of the epoch of a lock.
fn lock_of(kind: LockKind) -> EpochKind
    ensures { result ≡ EpochKind.Lock (is_exclusive kind) }
{
    EpochKind::Lock {
        exclusive: matches!(kind, LockKind::Exclusive),
    }
}
