//! Epochs that are open.
ghost use Rattle.std.specs.Prelude.{◌≡◌, Some, None, true, false, option_map, if◌then◌else◌};
ghost use Rattle.std.specs.Option.{option_and_then, option_map_or};
ghost use Rattle.rma_open.specs.declared.opening.EpochKind.TheVariants.{Fence};
ghost use Rattle.rma_open.specs.inside.Next.{kept_if_used, with_use};

use rma_base::RankSet;

/// The access epoch of a start.
#[derive(Debug, Drop)]
pub struct OpenStart {
    /// The number of the start among the calls of its rank.
    pub opener: u32,
    /// The targets of the epoch.
    pub targets: RankSet,
}

/// The lock of the part of one target.
#[derive(Clone, Copy, Debug)]
pub struct HeldLock {
    /// The number of the lock among the calls of its rank.
    pub opener: u32,
    /// Whether it keeps all other locks away.
    pub exclusive: bool,
}

/// The phase that a fence opened.
#[derive(Clone, Copy, Debug)]
pub struct FencePhase {
    /// The number of the fence among the calls of its rank.
    pub opener: u32,
    /// Whether an access stands in it.
    pub used: bool,
}

/// The kind of an epoch.
#[derive(Clone, Copy, Debug, PartialEq, Eq)]
pub enum EpochKind {
    /// The phase of a fence.
    Fence,
    /// The access epoch of a start.
    Start,
    /// The lock of one target.
    Lock {
        /// Whether it keeps all other locks away.
        exclusive: bool,
    },
    /// The shared lock of all targets.
    LockAll,
    /// The exposure epoch of a post, which reaches no target.
    Post,
}

/// An epoch that reaches a target.
#[derive(Clone, Copy, Debug, PartialEq, Eq)]
pub struct Opening {
    /// Its kind.
    pub kind: EpochKind,
    /// The number of the call that opens it.
    pub opener: u32,
}

/// The phase that a fence of this number opens, if it opens one.
pub(crate) fn opened_phase(number: u32, nosucceed: bool) -> Option<FencePhase>
    ensures { result ≡ (if nosucceed then None else Some (record { opener = number; used = false })) }
{
    if nosucceed {
        return None;
    }
    Some(FencePhase {
        opener: number,
        used: false,
    })
}

/// The phase after an access, which uses it.
pub(crate) fn used_phase(phase: Option<FencePhase>) -> Option<FencePhase>
    ensures { result ≡ option_map with_use phase }
{
    match phase {
        Some(phase) => Some(FencePhase {
            used: true,
            ..phase
        }),
        None => None,
    }
}

/// The phase after a start or a lock, which ends it unless it is used.
pub(crate) fn phase_if_used(phase: Option<FencePhase>) -> Option<FencePhase>
    ensures { result ≡ option_and_then kept_if_used phase }
{
    match phase {
        Some(phase) if phase.used => Some(phase),
        _ => None,
    }
}

/// Whether the phase is open and used.
pub(crate) fn is_used(phase: Option<FencePhase>) -> bool
    ensures { result ≡ option_map_or (λ phase. phase.used) phase false }
{
    match phase {
        Some(phase) => phase.used,
        None => false,
    }
}

/// The phase as an epoch that reaches all targets.
pub(crate) fn opening_of_phase(phase: Option<FencePhase>) -> Option<Opening>
    ensures { result ≡ option_map (λ phase. record { kind = Fence; opener = phase.opener }) phase }
{
    match phase {
        Some(phase) => Some(Opening {
            kind: EpochKind::Fence,
            opener: phase.opener,
        }),
        None => None,
    }
}
