//! Where accesses are done.
ghost use Rattle.std.specs.Prelude.{◌≡◌, IfOk, option_map};
ghost use Rattle.rma_link.specs.Point.{entry, return_of};
ghost use Rattle.rma_side.specs.Side.{ending_point, opening_point};
ghost use Rattle.rma_span.specs.Span.{done_at_caller, done_at_target, freeing_call};

use rma_base::{Memory, Point, Rank};
use rma_epoch::EpochKind;
use rma_side::Side;

/// Where a rank enters the call of a number.
///
/// # Errors
///
/// `Memory` where points have no numbers that are as large; no run has as many calls.
pub(crate) fn entry(rank: Rank, call: u32) -> Result<Point, Memory>
    ensures { IfOk result (λ point. point ≡ entry rank call) }
{
    let pos = call.checked_mul(2).ok_or(Memory)?;
    Ok(Point { rank, pos })
}

/// Where a rank returns from the call of a number.
///
/// # Errors
///
/// As [`entry`].
fn return_of(rank: Rank, call: u32) -> Result<Point, Memory>
    ensures { IfOk result (λ point. point ≡ return_of rank call) }
{
    let pos = call.checked_mul(2).ok_or(Memory)?;
    let pos = pos.checked_add(1).ok_or(Memory)?;
    Ok(Point { rank, pos })
}

/// Where a rank enters a call, if there is one.
fn entry_of(rank: Rank, call: Option<u32>) -> Result<Option<Point>, Memory>
    ensures { IfOk result (λ point. point ≡ option_map (entry rank) call) }
{
    match call {
        Some(call) => Ok(Some(entry(rank, call)?)),
        None => Ok(None),
    }
}

/// Where a rank returns from a call, if there is one.
fn return_from(rank: Rank, call: Option<u32>) -> Result<Option<Point>, Memory>
    ensures { IfOk result (λ point. point ≡ option_map (return_of rank) call) }
{
    match call {
        Some(call) => Ok(Some(return_of(rank, call)?)),
        None => Ok(None),
    }
}

/// Where an epoch opens at a target.
///
/// # Errors
///
/// As [`entry`].
pub(crate) fn opening_point(target: Rank, side: Side) -> Result<Option<Point>, Memory>
    ensures { IfOk result (λ point. point ≡ opening_point target side) }
{
    entry_of(target, side.opening)
}

/// Where what was accessed in an epoch of a rank is done at a target, by this call of the rank where it is a lock epoch.
///
/// # Errors
///
/// As [`entry`].
pub(crate) fn done_at_target(
    kind: EpochKind,
    rank: Rank,
    target: Rank,
    side: Side,
    completion: Option<u32>,
) -> Result<Option<Point>, Memory>
    ensures { IfOk result (λ point. point ≡ done_at_target kind rank target side completion) }
{
    match kind {
        EpochKind::Fence => entry_of(target, side.ending),
        EpochKind::Start => return_from(target, side.ending),
        EpochKind::Lock { .. } | EpochKind::LockAll => return_from(rank, completion),
        EpochKind::Post => Ok(None),
    }
}

/// The call by which the use of a buffer in an epoch is done, of the one that closes it and the one that completes it at the caller.
pub(crate) fn freeing_call(
    kind: EpochKind,
    close: Option<u32>,
    completion: Option<u32>,
) -> Option<u32>
    ensures { result ≡ freeing_call kind close completion }
{
    match kind {
        EpochKind::Fence => close,
        EpochKind::Start | EpochKind::Lock { .. } | EpochKind::LockAll | EpochKind::Post =>
            completion,
    }
}

/// Where the use of a buffer in an epoch is done by this call.
///
/// # Errors
///
/// As [`entry`].
pub(crate) fn done_at_caller(
    kind: EpochKind,
    rank: Rank,
    call: Option<u32>,
) -> Result<Option<Point>, Memory>
    ensures { IfOk result (λ point. point ≡ done_at_caller kind rank call) }
{
    match kind {
        EpochKind::Fence => entry_of(rank, call),
        EpochKind::Start | EpochKind::Lock { .. } | EpochKind::LockAll | EpochKind::Post =>
            return_from(rank, call),
    }
}
