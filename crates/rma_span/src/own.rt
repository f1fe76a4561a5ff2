//! The spans of memory of the rank itself.
ghost use Rattle.std.specs.Prelude.{◌≡◌, ℕ, Option, Some, IfOk, OnOk};
ghost use Rattle.rma_cover.specs.Cover.{IsFrom, StayThere};
ghost use Rattle.rma_cover.specs.inside.Held.{Represents};
ghost use Rattle.rma_epoch.specs.Table.{epochs_of};
ghost use Rattle.rma_span.specs.Span.{Origin, buffer_span, freed_by, local_span};
ghost use Rattle.rma_span.specs.inside.Origin.{IsOf, IsReady};
ghost use Rattle.rma_span.specs.inside.Stored.{IsOwn};

use crate::points::{done_at_caller, entry, freeing_call};
use crate::run::RankRun;
use crate::spans::OwnSpan;
use rma_base::{Memory, Rank};
use rma_cover::{KeyLists, OwnLocks};
use rma_epoch::Epoch;

/// The span of the load, store or poll of a number, to whose call the locks went on.
pub(crate) fn local_span(
    from: RankRun<'_>,
    held: &mut OwnLocks,
    lists: &mut KeyLists,
    number: u32,
) -> Result<OwnSpan, Memory>
    ensures span { IfOk result (λ kept. (own : Origin) → IsOf own from.entry → IsReady own number held.old → IsOwn lists.new (Some (local_span own number)) kept) }
    ensures held { (own : Origin) (at : ℕ) → IsReady own at held.old → IsReady own at held.new }
    ensures lists { OnOk result (StayThere lists.old lists.new) }
{
    let done = entry(from.rank, number)?;
    Ok(OwnSpan {
        done: Some(done),
        locks: held.cover(Some(number), lists)?,
    })
}

/// The span of the buffers of the access of a number in an epoch, to whose call the locks went on.
pub(crate) fn buffer_span(
    from: RankRun<'_>,
    held: &mut OwnLocks,
    lists: &mut KeyLists,
    number: u32,
    request: Option<u32>,
    epoch: &Epoch,
    target: Rank,
) -> Result<OwnSpan, Memory>
    ensures span { IfOk result (λ kept. (own : Origin) → IsOf own from.entry → IsReady own number held.old → IsFrom number (freed_by own epoch.now target request number)
        → IsOwn lists.new (Some (buffer_span own epoch.now target request number)) kept) }
    ensures held { (own : Origin) (at : ℕ) → IsReady own at held.old → IsReady own at held.new }
    ensures lists { OnOk result (StayThere lists.old lists.new) }
{
    let completion = from
        .completions
        .local(epoch.window, target, request, number);
    let call = freeing_call(epoch.kind, epoch.close, completion);
    Ok(OwnSpan {
        done: done_at_caller(epoch.kind, from.rank, call)?,
        locks: held.cover(call, lists)?,
    })
}
