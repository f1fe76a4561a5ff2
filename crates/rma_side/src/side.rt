//! The calls of a target at which an epoch opens and ends there.
ghost use Rattle.std.specs.Prelude.{◌≡◌, List, slice_get, option_map};
ghost use Rattle.rma_call.specs.Call.{call_of};
ghost use Rattle.rma_round.specs.Round.{partner_of};
ghost use Rattle.rma_run.specs.Run.{IsRun, calls_of};
ghost use Rattle.rma_match.specs.Matches.{AreMatches};
ghost use Rattle.rma_window.specs.Windows.{Window, part_of};
ghost use Rattle.rma_side.specs.Side.{ending_by, opening_by, side_of};

use rma_base::Rank;
use rma_call::{CallRef, RankCalls};
use rma_epoch::{Epoch, EpochKind};
use rma_match::Matches;
use rma_window::{WindowId, Windows};

/// The calls of a target at which an epoch of another rank opens and ends there.
#[derive(Clone, Copy, Debug, PartialEq, Eq)]
pub struct Side {
    /// The number of the call at whose entry it opens, among the calls of the target.
    pub opening: Option<u32>,
    /// The number of the call with which what was accessed in it is complete, among the calls of the target.
    pub ending: Option<u32>,
}

/// The calls of the target at which an epoch of a rank opens and ends there. The i-th log is that of rank i.
pub fn side_of(
    ranks: &[RankCalls],
    matches: &Matches,
    windows: &Windows,
    rank: Rank,
    epoch: &Epoch,
    target: Rank,
) -> Side
    requires run { IsRun ranks.now }
    requires matches { AreMatches ranks.now matches.now }
    ensures { result ≡ side_of (calls_of ranks.now) windows.now rank epoch.now target }
{
    Side {
        opening: opening_of(ranks, matches, windows, rank, epoch, target),
        ending: ending_of(ranks, matches, rank, epoch, target),
    }
}

/// The call of the target at whose entry the epoch opens there.
fn opening_of(
    ranks: &[RankCalls],
    matches: &Matches,
    windows: &Windows,
    rank: Rank,
    epoch: &Epoch,
    target: Rank,
) -> Option<u32>
    requires { AreMatches ranks.now matches.now }
    ensures { result ≡ opening_by epoch.now.kind (calls_of ranks.now) windows.now rank epoch.now target }
{
    match epoch.kind {
        EpochKind::Fence => fence_of(ranks, matches, rank, epoch.opener, target),
        EpochKind::Start => matches.exposures.partner(rank, epoch.opener, target),
        EpochKind::Lock { .. } | EpochKind::LockAll => created_by(windows, epoch.window, target),
        EpochKind::Post => None,
    }
}

/// The call of the target with which what was accessed in the epoch is complete there.
fn ending_of(
    ranks: &[RankCalls],
    matches: &Matches,
    rank: Rank,
    epoch: &Epoch,
    target: Rank,
) -> Option<u32>
    requires { AreMatches ranks.now matches.now }
    ensures { (windows : List Window) → result ≡ ending_by epoch.now.kind (calls_of ranks.now) windows rank epoch.now target }
{
    let close = epoch.close?;
    match epoch.kind {
        EpochKind::Fence => fence_of(ranks, matches, rank, close, target),
        EpochKind::Start => {
            let post = matches.exposures.partner(rank, epoch.opener, target)?;
            matches.exposures.expwait_of(target, post)
        }
        EpochKind::Lock { .. } | EpochKind::LockAll | EpochKind::Post => None,
    }
}

/// The fence of the target that is of the round of the fence of this number of a rank.
fn fence_of(
    ranks: &[RankCalls],
    matches: &Matches,
    rank: Rank,
    fence: u32,
    target: Rank,
) -> Option<u32>
    requires { AreMatches ranks.now matches.now }
    ensures { result ≡ partner_of (calls_of ranks.now) rank.0 fence target.0 }
{
    match call_at(ranks, rank, fence) {
        Some(call) => matches.rounds.partner(rank, fence, call, target),
        None => None,
    }
}

/// The call of this number of a rank.
fn call_at(ranks: &[RankCalls], rank: Rank, number: u32) -> Option<CallRef<'_>>
    ensures { option_map call_of result ≡ slice_get (calls_of ranks.now rank.0) number }
{
    let own = ranks.get(rank.0 as usize)?.calls();
    if (number as usize) < own.len() {
        Some(own.get(number as usize))
    } else {
        None
    }
}

/// The call with which the target created the window.
fn created_by(windows: &Windows, window: WindowId, target: Rank) -> Option<u32>
    ensures { result ≡ option_map (λ part. part.created) (part_of windows.now window target) }
{
    match windows.part(window, target) {
        Some(part) => Some(part.created),
        None => None,
    }
}
