//! The span of an access at its target.
ghost use Rattle.std.specs.Prelude.{◌≡◌, ◌<◌, ℕ, List, [], ◌∷◌, Some, length, option_to_list, slice_get, IfOk, OnOk};
ghost use Rattle.rma_cover.specs.Cover.{StayThere, key_of};
ghost use Rattle.rma_completion.specs.inside.Kept.{Represents};
ghost use Rattle.rma_epoch.specs.declared.epoch.Epoch.{Epoch};
ghost use Rattle.rma_epoch.specs.Table.{epochs_of};
ghost use Rattle.rma_match.specs.Matches.{AreMatches};
ghost use Rattle.rma_run.specs.Run.{IsRun, calls_of};
ghost use Rattle.rma_side.specs.Sides.{AreSides};
ghost use Rattle.rma_span.specs.Span.{Origin, target_span};
ghost use Rattle.rma_span.specs.inside.Stored.{IsAtTarget};
ghost use Rattle.rma_span.specs.inside.Origin.{IsOf};

use crate::points::{done_at_target, opening_point};
use crate::run::RankRun;
use crate::spans::TargetSpan;
use rma_base::{Memory, Rank};
use rma_call::RankCalls;
use rma_completion::Completions;
use rma_cover::{KeyLists, key_of};
use rma_epoch::Epoch;
use rma_match::Matches;
use rma_side::Sides;
use rma_window::Windows;

/// The span of the access of a number at its target, in the epoch at an index.
pub(crate) fn target_span(
    from: RankRun<'_>,
    sides: &mut Sides,
    lists: &mut KeyLists,
    number: u32,
    index: u32,
    target: Rank,
) -> Result<TargetSpan, Memory>
    requires run { IsRun from.ranks.now }
    requires matches { AreMatches from.ranks.now from.matches.now }
    requires there { index < length from.epochs.now }
    ensures span { IfOk result (λ kept. (own : Origin) (epoch : Epoch) → IsOf own from.entry → slice_get from.entry.epochs.now index ≡ Some epoch
        → AreSides own.calls own.windows own.rank from.entry.epochs.now sides.old → IsAtTarget lists.new (Some (target_span own epoch target number)) (Some kept)) }
    ensures sides { OnOk result ((own : Origin) → IsOf own from.entry → AreSides own.calls own.windows own.rank from.entry.epochs.now sides.old → AreSides own.calls own.windows own.rank from.entry.epochs.now sides.new) }
    ensures lists { OnOk result (StayThere lists.old lists.new) }
{
    let side = sides.of(
        from.ranks,
        from.matches,
        from.windows,
        from.rank,
        from.epochs,
        index,
        target,
    )?;
    let side = sides.side(side);
    let epoch = &from.epochs[index as usize];
    let completion = from.completions.remote(epoch.window, target, number);
    Ok(TargetSpan {
        opening: opening_point(target, side)?,
        done: done_at_target(epoch.kind, from.rank, target, side, completion)?,
        locks: list_of(lists, from.rank, epoch, target)?,
    })
}

/// The number of the list of the lock epoch in which an access to a target lies, or of none.
fn list_of(lists: &mut KeyLists, rank: Rank, epoch: &Epoch, target: Rank) -> Result<u32, Memory>
    ensures list { IfOk result (λ number. slice_get lists.new number ≡ Some (option_to_list (key_of rank epoch.now target))) }
    ensures others { OnOk result (StayThere lists.old lists.new) }
{
    match key_of(rank, epoch, target) {
        Some(key) => lists.number_of(&[key]),
        None => lists.number_of(&[]),
    }
}
