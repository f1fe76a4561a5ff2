//! Updates in an exposure whose call says `noput`.
ghost use Rattle.std.specs.Prelude.{◌≡◌, ◌<◌, ◌↔◌, ℕ, true, List, Some, All, OnOk, length, map, false, Contains};
ghost use Rattle.rma_base.specs.declared.line.LineNo.{LineNo};
ghost use Rattle.rma_base.specs.declared.rank.Rank.{Rank};
ghost use Rattle.rma_call.specs.Call.{Call};
ghost use Rattle.rma_link.specs.declared.meet.Member.{Member};
ghost use Rattle.rma_link.specs.Point.{entry};
ghost use Rattle.rma_rules.specs.Kind.{is_update};
ghost use Rattle.rma_run.specs.Run.{calls_of};
ghost use Rattle.rma_span.specs.Span.{accesses, origin_of, spanned_calls};
ghost use Rattle.rma_accesses.specs.inside.Kept.{IsAccessesOf, rank_of};
ghost use Rattle.rma_concurrent.specs.inside.Places.{HasMore};
ghost use Rattle.rma_assert.specs.declared.assertion.BrokenAssertion.{BrokenAssertion};
ghost use Rattle.rma_assert.specs.Asserted.{assertions_of};
ghost use Rattle.rma_assert.specs.Updates.{IsByUpdate, IsNoputBroken, WaitsFor};
ghost use Rattle.rma_assert.specs.inside.Updated.{IsOfTargetAt, IsOfUpdates, SaysNoput};

use crate::asserting::assertions_of;
use crate::assertion::{AssertionReason, BrokenAssertion};
use rma_accesses::RankAccesses;
use rma_base::{LineNo, Memory, Rank};
use rma_call::{CallList, RankCalls};
use rma_link::Member;
use rma_rules::{Access, Role};

/// Adds the reports of the updates of a run. Where no call says `noput`, no update is looked at.
///
/// # Errors
///
/// `Memory`, and then nothing is said of what is listed.
pub(crate) fn add_updates(
    found: &mut Vec<BrokenAssertion>,
    ranks: &[RankCalls],
    owns: &[RankAccesses<'_, '_>],
) -> Result<(), Memory>
    requires owns { map rank_of owns.now ≡ ranks.now }
    requires each { All (IsAccessesOf ranks.now) owns.now }
    ensures { OnOk result (HasMore (IsNoputBroken (calls_of ranks.now) (accesses ranks.now)) found.old.items found.new.items) }
{
    if !any_says(ranks) {
        return Ok(());
    }
    add_of_ranks(found, ranks, owns)
}

/// Whether a call of a run says `noput`.
fn any_says(ranks: &[RankCalls]) -> bool
    ensures { result ≡ false → (rank : Rank) (number : ℕ) (line : LineNo) → SaysNoput (calls_of ranks.now) rank number line → ⊥ }
{
    for own in ranks {
        if says_noput(own.calls()) {
            return true;
        }
    }
    false
}

/// Whether one of the calls of a rank does. What calls do is looked at once for all that do the same.
fn says_noput(calls: &CallList) -> bool
    ensures { result ≡ false → (call : Call) → Contains calls.now.calls call → (assertions_of call.what).noput ≡ false }
{
    for number in 0..calls.whats() {
        if assertions_of(calls.what(number)).noput {
            return true;
        }
    }
    false
}

/// Adds the reports of the updates of a run, rank by rank.
fn add_of_ranks(
    found: &mut Vec<BrokenAssertion>,
    ranks: &[RankCalls],
    owns: &[RankAccesses<'_, '_>],
) -> Result<(), Memory>
    requires owns { map rank_of owns.now ≡ ranks.now }
    requires each { All (IsAccessesOf ranks.now) owns.now }
    ensures { OnOk result (HasMore (IsNoputBroken (calls_of ranks.now) (accesses ranks.now)) found.old.items found.new.items) }
{
    for own in owns {
        add_of_rank(found, own, ranks)?;
    }
    Ok(())
}

/// Adds those of the updates of one rank.
fn add_of_rank(
    found: &mut Vec<BrokenAssertion>,
    own: &RankAccesses<'_, '_>,
    ranks: &[RankCalls],
) -> Result<(), Memory>
    requires { IsAccessesOf ranks.now own.now }
    ensures { OnOk result (HasMore (IsOfUpdates ranks.now (rank_of own.now)) found.old.items found.new.items) }
{
    for index in 0..own.len() {
        add_of_index(found, own, index, ranks)?;
    }
    Ok(())
}

/// Adds that of the call at an index among those that access memory.
fn add_of_index(
    found: &mut Vec<BrokenAssertion>,
    own: &RankAccesses<'_, '_>,
    index: usize,
    ranks: &[RankCalls],
) -> Result<(), Memory>
    requires own { IsAccessesOf ranks.now own.now }
    requires index { index < length (spanned_calls (origin_of ranks.now (rank_of own.now))) }
    ensures { OnOk result (HasMore (IsOfTargetAt ranks.now (rank_of own.now) index) found.old.items found.new.items) }
{
    match own.access(index, Role::Target) {
        Some(access) => add_of_access(found, &access, ranks),
        None => Ok(()),
    }
}

/// Adds that of an access.
fn add_of_access(
    found: &mut Vec<BrokenAssertion>,
    access: &Access<'_>,
    ranks: &[RankCalls],
) -> Result<(), Memory>
    ensures { OnOk result (HasMore (IsByUpdate (calls_of ranks.now) access.now) found.old.items found.new.items) }
{
    if let Some(report) = report_of(access, ranks) {
        found.push(report)?;
    }
    Ok(())
}

/// The report of an access, if it is an update and the call that opens its exposure says `noput`.
fn report_of(access: &Access<'_>, ranks: &[RankCalls]) -> Option<BrokenAssertion>
    ensures { (found : BrokenAssertion) → (result ≡ Some found) ↔ IsByUpdate (calls_of ranks.now) access.now found }
{
    if !access.kind.is_update() {
        return None;
    }
    match opening_of(access) {
        Some(opening) => report_at(access, opening, ranks),
        None => None,
    }
}

/// The same of an update, by the call that opens its exposure.
fn report_at(access: &Access<'_>, opening: Member, ranks: &[RankCalls]) -> Option<BrokenAssertion>
    requires updates { is_update access.now.kind ≡ true }
    requires waits { (other : Member) → (opening ≡ other) ↔ WaitsFor access.now (entry other.rank other.call) }
    ensures { (found : BrokenAssertion) → (result ≡ Some found) ↔ IsByUpdate (calls_of ranks.now) access.now found }
{
    match noput_line(opening.rank, opening.call, ranks) {
        Some(line) => Some(BrokenAssertion {
            reason: AssertionReason::Noput,
            rank: opening.rank,
            line,
            other: (access.name.rank, access.name.line),
        }),
        None => None,
    }
}

/// The call that opens the exposure in which an access is made.
fn opening_of(access: &Access<'_>) -> Option<Member>
    ensures { (opening : Member) → (result ≡ Some opening) ↔ WaitsFor access.now (entry opening.rank opening.call) }
{
    let Some(point) = access.opening else {
        return None;
    };
    if point.pos % 2 != 0 || (point.rank == access.name.rank && point.pos == 2 * access.call) {
        return None;
    }
    Some(Member {
        rank: point.rank,
        call: point.pos / 2,
    })
}

/// The line of the call of a number of a rank, where it says `noput`.
fn noput_line(rank: Rank, number: u32, ranks: &[RankCalls]) -> Option<LineNo>
    ensures { (line : LineNo) → (result ≡ Some line) ↔ SaysNoput (calls_of ranks.now) rank number line }
{
    match ranks.get(rank.0 as usize) {
        Some(own) => line_at(rank, own.calls(), number, ranks),
        None => None,
    }
}

/// The same of a rank with these calls.
fn line_at(rank: Rank, calls: &CallList, number: u32, ranks: &[RankCalls]) -> Option<LineNo>
    requires { calls_of ranks.now rank.0 ≡ calls.now.calls }
    ensures { (line : LineNo) → (result ≡ Some line) ↔ SaysNoput (calls_of ranks.now) rank number line }
{
    if number as usize >= calls.len() {
        return None;
    }
    let call = calls.get(number as usize);
    if assertions_of(call.what).noput {
        Some(call.line)
    } else {
        None
    }
}
