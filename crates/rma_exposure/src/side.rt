//! The two sides of general active target synchronisation.
ghost use Rattle.std.specs.Prelude.{◌≡◌, false, option_map};
ghost use Rattle.rma_call.specs.Call.{what_of};
ghost use Rattle.rma_exposure.specs.Opening.{opened, opposite, posted, started};
ghost use Rattle.rma_exposure.specs.inside.Epochs.{IsNeither};

use rma_base::{Name, RankSet};
use rma_call::{EpochCall, WhatRef};

/// Whose epochs: those of targets, or those of origins.
#[derive(Clone, Copy, Debug, PartialEq, Eq)]
pub enum Side {
    /// Exposure epochs, from a post to its expwait.
    Exposure,
    /// Access epochs, from a start to its complete.
    Access,
}

/// The other side.
pub(crate) fn opposite(side: Side) -> Side
    ensures { result ≡ opposite side }
{
    match side {
        Side::Exposure => Side::Access,
        Side::Access => Side::Exposure,
    }
}

/// Whether a call opens an epoch of either side, or closes one.
pub(crate) fn opens_or_closes(what: WhatRef<'_>) -> bool
    ensures { result ≡ false → IsNeither (what_of what.entry) }
{
    match what {
        WhatRef::Epoch(
            EpochCall::Post { .. }
            | EpochCall::Expwait { .. }
            | EpochCall::Start { .. }
            | EpochCall::Complete { .. },
        ) => true,
        _ => false,
    }
}

/// The window and the group of a call that opens an epoch of the side.
pub(crate) fn opened<'a>(side: Side, what: WhatRef<'a>) -> Option<(&'a Name, &'a RankSet)>
    ensures { option_map (λ p. record { window = p.0.now; group = p.1.now }) result ≡ opened side (what_of what.entry) }
{
    match side {
        Side::Exposure => posted(what),
        Side::Access => started(what),
    }
}

/// The window and the group of a post.
fn posted<'a>(what: WhatRef<'a>) -> Option<(&'a Name, &'a RankSet)>
    ensures { option_map (λ p. record { window = p.0.now; group = p.1.now }) result ≡ posted (what_of what.entry) }
{
    match what {
        WhatRef::Epoch(
            EpochCall::Post {
                window,
                origins,
                ..
            },
        ) => Some((window, origins)),
        _ => None,
    }
}

/// The window and the group of a start.
fn started<'a>(what: WhatRef<'a>) -> Option<(&'a Name, &'a RankSet)>
    ensures { option_map (λ p. record { window = p.0.now; group = p.1.now }) result ≡ started (what_of what.entry) }
{
    match what {
        WhatRef::Epoch(
            EpochCall::Start {
                window,
                targets,
                ..
            },
        ) => Some((window, targets)),
        _ => None,
    }
}
