//! Lock epochs as keys.
ghost use Rattle.std.specs.Prelude.{◌≡◌};
ghost use Rattle.rma_cover.specs.Cover.{key_of, locks, own_key, reaches};

use rma_base::Rank;
use rma_epoch::{Epoch, EpochKind, Targets};
use rma_rules::LockKey;
use rma_window::Windows;

/// A lock epoch of a rank as it covers what is accessed at a target; none where the epoch is another one.
pub fn key_of(rank: Rank, epoch: &Epoch, target: Rank) -> Option<LockKey>
    ensures { result ≡ key_of rank epoch.now target }
{
    let exclusive = locks(epoch.kind)?;
    Some(LockKey {
        window: epoch.window,
        target,
        rank,
        opener: epoch.opener,
        exclusive,
    })
}

/// Whether a lock epoch of this kind keeps all others away; none where it is no lock epoch.
fn locks(kind: EpochKind) -> Option<bool>
    ensures { result ≡ locks kind }
{
    match kind {
        EpochKind::Lock { exclusive } => Some(exclusive),
        EpochKind::LockAll => Some(false),
        EpochKind::Fence => None,
        EpochKind::Start => None,
        EpochKind::Post => None,
    }
}

/// A lock epoch of a rank on itself.
pub(crate) fn own_key(windows: &Windows, rank: Rank, epoch: &Epoch) -> Option<LockKey>
    ensures { result ≡ own_key windows.now rank epoch.now }
{
    if reaches(windows, epoch, rank) {
        key_of(rank, epoch, rank)
    } else {
        None
    }
}

/// Whether an epoch has a rank among its targets: a lock its one target, a lockall each rank that has a part of the window.
fn reaches(windows: &Windows, epoch: &Epoch, rank: Rank) -> bool
    ensures { result ≡ reaches windows.now epoch.now epoch.now.targets rank }
{
    match &epoch.targets {
        Targets::All => windows.part(epoch.window, rank).is_some(),
        Targets::One(target) => target.0 == rank.0,
        Targets::Group(_) => false,
    }
}
