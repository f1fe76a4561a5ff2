//! The lists of such epochs.
ghost use Rattle.std.specs.Prelude.{◌≡◌, ◌∷◌, [], OnOk};
ghost use Rattle.rma_exposed.specs.Exposed.{exposure_with, line_of, lock_with, post_with, with_epochs};
ghost use Rattle.rma_epoch.specs.Targets.{one_target};

use rma_base::{LineNo, Memory, Rank};
use rma_call::CallList;
use rma_epoch::{Epoch, EpochKind, Targets};
use rma_rules::{Exposure, ExposureKind, LockSpan, Post, Spans};

/// Adds what the epochs of a rank are, by its calls: lock epochs, exposures and posts.
///
/// # Errors
///
/// `Memory`, and then nothing is said of what is listed.
pub fn list_epochs(
    spans: &mut Spans,
    rank: Rank,
    calls: &CallList,
    epochs: &[Epoch],
) -> Result<(), Memory>
    ensures { OnOk result (spans.new ≡ with_epochs spans.old rank calls.now.calls epochs.now) }
{
    for epoch in epochs {
        list_epoch(spans, rank, calls, epoch)?;
    }
    Ok(())
}

/// Adds what an epoch is.
fn list_epoch(spans: &mut Spans, rank: Rank, calls: &CallList, epoch: &Epoch) -> Result<(), Memory>
    ensures { OnOk result (spans.new ≡ with_epochs spans.old rank calls.now.calls (epoch.now ∷ [])) }
{
    match epoch.kind {
        EpochKind::Lock { .. } | EpochKind::LockAll => {
            spans.add_lock(lock_with(rank, calls, epoch))
        }
        EpochKind::Post => {
            spans.add_exposure(exposure_with(rank, calls, epoch))?;
            spans.add_post(post_with(rank, calls, epoch))
        }
        EpochKind::Fence | EpochKind::Start => Ok(()),
    }
}

/// An epoch of a rank as a lock epoch.
fn lock_with(rank: Rank, calls: &CallList, epoch: &Epoch) -> LockSpan
    ensures { result ≡ lock_with rank calls.now.calls epoch.now }
{
    LockSpan {
        window: epoch.window,
        rank,
        target: one_target(&epoch.targets),
        opener: epoch.opener,
        close: epoch.close,
        line: line_of(calls, epoch.opener),
    }
}

/// An epoch of a rank as the exposure of a post.
fn exposure_with(rank: Rank, calls: &CallList, epoch: &Epoch) -> Exposure
    ensures { result ≡ exposure_with rank calls.now.calls epoch.now }
{
    Exposure {
        window: epoch.window,
        target: rank,
        kind: ExposureKind::Posted,
        opener: epoch.opener,
        close: epoch.close,
        opened: line_of(calls, epoch.opener),
    }
}

/// The post that opens an epoch of a rank.
fn post_with(rank: Rank, calls: &CallList, epoch: &Epoch) -> Post
    ensures { result ≡ post_with rank calls.now.calls epoch.now }
{
    Post {
        window: epoch.window,
        rank,
        call: epoch.opener,
        line: line_of(calls, epoch.opener),
    }
}

/// The one target of an epoch.
fn one_target(targets: &Targets) -> Option<Rank>
    ensures { result ≡ one_target targets.now }
{
    match targets {
        Targets::One(target) => Some(*target),
        Targets::All => None,
        Targets::Group(_) => None,
    }
}

/// The line of the call of a number.
fn line_of(calls: &CallList, number: u32) -> LineNo
    ensures { result ≡ line_of calls.now.calls number }
{
    if (number as usize) < calls.len() {
        calls.get(number as usize).line
    } else {
        LineNo(0)
    }
}
