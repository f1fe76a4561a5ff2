//! Starts and posts whose `nocheck` does not hold.
ghost use Rattle.std.specs.Prelude.{◌≡◌, ◌<◌, ◌^◌, ◌↔◌, ℕ, List, Some, Contains, IsTrue, OnOk, length, slice_get};
ghost use Rattle.rma_call.specs.Call.{Call, RankCalls};
ghost use Rattle.rma_clock.specs.Reached.{IsReached, points_of};
ghost use Rattle.rma_exposure.specs.Matching.{partner_of};
ghost use Rattle.rma_exposure.specs.inside.Epochs.{Represents};
ghost use Rattle.rma_link.specs.declared.links.Links.{Links};
ghost use Rattle.rma_link.specs.Order.{IsAtOrBefore};
ghost use Rattle.rma_link.specs.Point.{entry, return_of};
ghost use Rattle.rma_run.specs.Run.{IsRun, calls_of, lens_of};
ghost use Rattle.rma_concurrent.specs.inside.Places.{HasMore};
ghost use Rattle.rma_assert.specs.declared.assertion.AssertionReason.{AssertionReason};
ghost use Rattle.rma_assert.specs.declared.assertion.BrokenAssertion.{BrokenAssertion};
ghost use Rattle.rma_assert.specs.Starts.{IsAtStart, IsStartBroken, IsStartReason};
ghost use Rattle.rma_assert.specs.inside.Gathered.{IsAsserting};
ghost use Rattle.rma_assert.specs.inside.Started.{IsOfPair, IsOfPost, IsOfRank, IsOfStart, IsOfTarget};

use crate::asserting::{Asserting, assertions_of, entry_of, return_from};
use crate::assertion::{AssertionReason, BrokenAssertion};
use rma_base::{Memory, Rank};
use rma_call::{CallList, EpochCall, RankCalls, WhatRef};
use rma_clock::Clocks;
use rma_exposure::Exposures;

/// Adds the reports of the starts of a run.
///
/// # Errors
///
/// `Memory`, and then nothing is said of what is listed.
pub(crate) fn add_starts<C: Clocks>(
    found: &mut Vec<BrokenAssertion>,
    ranks: &[RankCalls],
    exposures: &Exposures,
    clocks: &C,
) -> Result<(), Memory>
    requires run { IsRun ranks.now }
    requires exposures { Represents (calls_of ranks.now) exposures.now }
    requires clocks { (links : Links) × C.are_of clocks.now (points_of (lens_of ranks.now)) links }
    ensures { OnOk result ((links : Links) → C.are_of clocks.now (points_of (lens_of ranks.now)) links → HasMore (IsStartBroken links (calls_of ranks.now)) found.old.items found.new.items) }
{
    for own in ranks {
        add_of_rank(found, own, ranks, exposures, clocks)?;
    }
    Ok(())
}

/// Adds those of the starts of one rank.
fn add_of_rank<C: Clocks>(
    found: &mut Vec<BrokenAssertion>,
    own: &RankCalls,
    ranks: &[RankCalls],
    exposures: &Exposures,
    clocks: &C,
) -> Result<(), Memory>
    requires run { IsRun ranks.now }
    requires own { slice_get ranks.now own.now.rank.0 ≡ Some own.now }
    requires exposures { Represents (calls_of ranks.now) exposures.now }
    requires clocks { (links : Links) × C.are_of clocks.now (points_of (lens_of ranks.now)) links }
    ensures { OnOk result ((links : Links) → C.are_of clocks.now (points_of (lens_of ranks.now)) links → HasMore (IsOfRank links (calls_of ranks.now) own.now.rank) found.old.items found.new.items) }
{
    let calls = own.calls();
    for number in 0..calls.len() {
        add_of_call(found, own.rank(), calls, number, ranks, exposures, clocks)?;
    }
    Ok(())
}

/// Adds those of one call, where it is a start.
fn add_of_call<C: Clocks>(
    found: &mut Vec<BrokenAssertion>,
    rank: Rank,
    calls: &CallList,
    number: usize,
    ranks: &[RankCalls],
    exposures: &Exposures,
    clocks: &C,
) -> Result<(), Memory>
    requires run { IsRun ranks.now }
    requires own { calls_of ranks.now rank.0 ≡ calls.now.calls }
    requires number { number < length calls.now.calls }
    requires exposures { Represents (calls_of ranks.now) exposures.now }
    requires clocks { (links : Links) × C.are_of clocks.now (points_of (lens_of ranks.now)) links }
    ensures { OnOk result ((links : Links) → C.are_of clocks.now (points_of (lens_of ranks.now)) links → HasMore (IsOfStart links (calls_of ranks.now) rank number) found.old.items found.new.items) }
{
    let WhatRef::Epoch(
        EpochCall::Start {
            targets,
            assertions,
            ..
        },
    ) = calls.what(calls.what_number(number))
    else {
        return Ok(());
    };
    let start = Asserting {
        rank,
        number: number as u32,
        line: calls.get(number).line,
        nocheck: assertions.nocheck,
    };
    add_of_targets(found, start, targets.numbers(), ranks, exposures, clocks)
}

/// Adds those of a start, by its targets.
fn add_of_targets<C: Clocks>(
    found: &mut Vec<BrokenAssertion>,
    start: Asserting,
    targets: &[u32],
    ranks: &[RankCalls],
    exposures: &Exposures,
    clocks: &C,
) -> Result<(), Memory>
    requires run { IsRun ranks.now }
    requires start { IsAsserting (calls_of ranks.now) start }
    requires exposures { Represents (calls_of ranks.now) exposures.now }
    requires clocks { (links : Links) × C.are_of clocks.now (points_of (lens_of ranks.now)) links }
    ensures { OnOk result ((links : Links) → C.are_of clocks.now (points_of (lens_of ranks.now)) links
        → HasMore (λ x. (target : ℕ) × Contains targets.now target × IsOfTarget links (calls_of ranks.now) start target x) found.old.items found.new.items) }
{
    for target in targets {
        add_of_target(found, start, Rank(*target), ranks, exposures, clocks)?;
    }
    Ok(())
}

/// Adds that of a start and a target, if their `nocheck` does not hold.
fn add_of_target<C: Clocks>(
    found: &mut Vec<BrokenAssertion>,
    start: Asserting,
    target: Rank,
    ranks: &[RankCalls],
    exposures: &Exposures,
    clocks: &C,
) -> Result<(), Memory>
    requires run { IsRun ranks.now }
    requires start { IsAsserting (calls_of ranks.now) start }
    requires exposures { Represents (calls_of ranks.now) exposures.now }
    requires clocks { (links : Links) × C.are_of clocks.now (points_of (lens_of ranks.now)) links }
    ensures { OnOk result ((links : Links) → C.are_of clocks.now (points_of (lens_of ranks.now)) links → HasMore (IsOfTarget links (calls_of ranks.now) start target.0) found.old.items found.new.items) }
{
    match post_of(start, target, ranks, exposures) {
        Some(post) => add_pair(found, start, post, clocks),
        None => Ok(()),
    }
}

/// The post of a target that a start matches.
fn post_of(
    start: Asserting,
    target: Rank,
    ranks: &[RankCalls],
    exposures: &Exposures,
) -> Option<Asserting>
    requires { Represents (calls_of ranks.now) exposures.now }
    ensures { IsOfPost (calls_of ranks.now) (partner_of (calls_of ranks.now) start.rank.0 start.number target.0) target result }
{
    match exposures.partner(start.rank, start.number, target) {
        Some(post) => call_of(target, post, ranks),
        None => None,
    }
}

/// The call of a number of a rank.
fn call_of(rank: Rank, number: u32, ranks: &[RankCalls]) -> Option<Asserting>
    ensures { IsOfPost (calls_of ranks.now) (Some number) rank result }
{
    match ranks.get(rank.0 as usize) {
        Some(own) => call_at(rank, own.calls(), number, ranks),
        None => None,
    }
}

/// The same of a rank with these calls.
fn call_at(rank: Rank, calls: &CallList, number: u32, ranks: &[RankCalls]) -> Option<Asserting>
    requires { calls_of ranks.now rank.0 ≡ calls.now.calls }
    ensures { IsOfPost (calls_of ranks.now) (Some number) rank result }
{
    if number as usize >= calls.len() {
        return None;
    }
    let call = calls.get(number as usize);
    Some(Asserting {
        rank,
        number,
        line: call.line,
        nocheck: assertions_of(call.what).nocheck,
    })
}

/// Adds the report of a start and its post, if their `nocheck` does not hold.
fn add_pair<C: Clocks>(
    found: &mut Vec<BrokenAssertion>,
    start: Asserting,
    post: Asserting,
    clocks: &C,
) -> Result<(), Memory>
    requires small { (start.number < 2 ^ 31) × (post.number < 2 ^ 31) }
    requires clocks { (points : List ℕ) × (links : Links) × C.are_of clocks.now points links × IsReached points (return_of post.rank post.number) × IsReached points (entry start.rank start.number) }
    ensures { OnOk result ((points : List ℕ) (links : Links) → C.are_of clocks.now points links → IsReached points (return_of post.rank post.number) → IsReached points (entry start.rank start.number)
        → HasMore (IsOfPair links start post) found.old.items found.new.items) }
{
    if let Some(reason) = reason_of(start, post, clocks) {
        found.push(BrokenAssertion {
            reason,
            rank: start.rank,
            line: start.line,
            other: (post.rank, post.line),
        })?;
    }
    Ok(())
}

/// Why the `nocheck` of a start and its post does not hold, if it does not.
fn reason_of<C: Clocks>(start: Asserting, post: Asserting, clocks: &C) -> Option<AssertionReason>
    requires small { (start.number < 2 ^ 31) × (post.number < 2 ^ 31) }
    requires clocks { (points : List ℕ) × (links : Links) × C.are_of clocks.now points links × IsReached points (return_of post.rank post.number) × IsReached points (entry start.rank start.number) }
    ensures { (points : List ℕ) (links : Links) → C.are_of clocks.now points links → IsReached points (return_of post.rank post.number) → IsReached points (entry start.rank start.number)
        → (reason : AssertionReason) → (result ≡ Some reason) ↔ IsStartReason links reason start.rank start.number start.nocheck post.rank post.number post.nocheck }
{
    if start.nocheck != post.nocheck {
        return Some(AssertionReason::NocheckAlone);
    }
    if start.nocheck && !is_ordered(start, post, clocks) {
        return Some(AssertionReason::NocheckUnordered);
    }
    None
}

/// Whether the target has returned from its post when the origin enters its start.
fn is_ordered<C: Clocks>(start: Asserting, post: Asserting, clocks: &C) -> bool
    requires small { (start.number < 2 ^ 31) × (post.number < 2 ^ 31) }
    requires clocks { (points : List ℕ) × (links : Links) × C.are_of clocks.now points links × IsReached points (return_of post.rank post.number) × IsReached points (entry start.rank start.number) }
    ensures { (points : List ℕ) (links : Links) → C.are_of clocks.now points links → IsReached points (return_of post.rank post.number) → IsReached points (entry start.rank start.number)
        → IsTrue result ↔ IsAtOrBefore links (return_of post.rank post.number) (entry start.rank start.number) }
{
    let posted = return_from(post.rank, post.number);
    let started = entry_of(start.rank, start.number);
    clocks.leq(posted, started)
}
