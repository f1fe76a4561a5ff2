//! Stores to the part of a rank whose call says `nostore`.
ghost use Rattle.std.specs.Prelude.{◌≡◌, ◌<◌, ◌≤◌, ◌^◌, ◌↔◌, ℕ, true, false, List, Some, All, Contains, IsTrue, OnOk, length, map, slice_get};
ghost use Rattle.rma_run.specs.Run.{IsRun, calls_of};
ghost use Rattle.rma_window.specs.Windows.{Window};
ghost use Rattle.rma_rules.specs.Kind.{is_store};
ghost use Rattle.rma_rules.specs.Share.{MeetsPart, run_of_part};
ghost use Rattle.rma_base.specs.Limits.{address_limit};
ghost use Rattle.rma_rules.specs.Spans.{AreCalls, publishing_of};
ghost use Rattle.rma_span.specs.Span.{accesses, origin_of, spanned_calls};
ghost use Rattle.rma_accesses.specs.inside.Kept.{IsAccessesOf, rank_of};
ghost use Rattle.rma_concurrent.specs.inside.Places.{HasMore};
ghost use Rattle.rma_assert.specs.Stores.{IsDoneBy, IsNostoreBroken};
ghost use Rattle.rma_assert.specs.inside.Stored.{IsStored, IsStoredAt, IsStoredBy, IsStoredIn, IsStoredOf};
ghost use Rattle.rma_assert.specs.inside.Updated.{IsOfIndex};

use crate::assertion::{AssertionReason, BrokenAssertion};
use crate::publishing::{Publishing, any_says, count_before, nostore_line};
use rma_accesses::RankAccesses;
use rma_base::Memory;
use rma_bytes::Run;
use rma_call::RankCalls;
use rma_rules::{Access, Role, Spans};
use rma_window::{Part, WindowId, Windows};

/// Adds the reports of the stores of a run.
///
/// # Errors
///
/// `Memory`, and then nothing is said of what is listed.
pub(crate) fn add_stores(
    found: &mut Vec<BrokenAssertion>,
    ranks: &[RankCalls],
    owns: &[RankAccesses<'_, '_>],
    lists: &Spans,
    windows: &Windows,
) -> Result<(), Memory>
    requires run { IsRun ranks.now }
    requires owns { map rank_of owns.now ≡ ranks.now }
    requires each { All (IsAccessesOf ranks.now) owns.now }
    ensures { OnOk result (HasMore (IsNostoreBroken windows.now lists.now (calls_of ranks.now) (accesses ranks.now)) found.old.items found.new.items) }
{
    for index in 0..ranks.len() {
        add_of_rank(found, &ranks[index], &owns[index], ranks, lists, windows)?;
    }
    Ok(())
}

/// Adds those of the stores of one rank.
fn add_of_rank(
    found: &mut Vec<BrokenAssertion>,
    own: &RankCalls,
    accesses: &RankAccesses<'_, '_>,
    ranks: &[RankCalls],
    lists: &Spans,
    windows: &Windows,
) -> Result<(), Memory>
    requires own { rank_of accesses.now ≡ own.now }
    requires accesses { IsAccessesOf ranks.now accesses.now }
    ensures { OnOk result (HasMore (IsStoredOf windows.now lists.now ranks.now own.now) found.old.items found.new.items) }
{
    let Ok(count) = u32::try_from(windows.len()) else {
        return Err(Memory);
    };
    for number in 0..count {
        let window = WindowId(number);
        add_of_window(found, own, accesses, window, ranks, lists, windows)?;
    }
    Ok(())
}

/// Adds those of the stores to the part of one window. Where no call on it says `nostore`, no store is looked at.
fn add_of_window(
    found: &mut Vec<BrokenAssertion>,
    own: &RankCalls,
    accesses: &RankAccesses<'_, '_>,
    window: WindowId,
    ranks: &[RankCalls],
    lists: &Spans,
    windows: &Windows,
) -> Result<(), Memory>
    requires own { rank_of accesses.now ≡ own.now }
    requires accesses { IsAccessesOf ranks.now accesses.now }
    ensures { OnOk result (HasMore (IsStoredIn windows.now lists.now ranks.now own.now window.0) found.old.items found.new.items) }
{
    let given = Publishing {
        rank: own.rank(),
        calls: own.calls(),
        window,
        published: lists.publishing(own.rank(), window),
    };
    if any_says(given.calls, given.published) {
        add_of_calls(found, accesses, &given, ranks, windows)
    } else {
        Ok(())
    }
}

/// Adds those of the calls of a rank that access memory.
fn add_of_calls(
    found: &mut Vec<BrokenAssertion>,
    accesses: &RankAccesses<'_, '_>,
    given: &Publishing<'_>,
    ranks: &[RankCalls],
    windows: &Windows,
) -> Result<(), Memory>
    requires rank { (rank_of accesses.now).rank ≡ given.now.rank }
    requires accesses { IsAccessesOf ranks.now accesses.now }
    requires published { AreCalls given.now.published.now }
    ensures { OnOk result (HasMore (λ x. (index : ℕ) × IsStoredAt windows.now ranks.now (rank_of accesses.now) given.now index x) found.old.items found.new.items) }
{
    for index in 0..accesses.len() {
        add_of_index(found, accesses, index, given, ranks, windows)?;
    }
    Ok(())
}

/// Adds those of the call at an index among those that access memory.
fn add_of_index(
    found: &mut Vec<BrokenAssertion>,
    accesses: &RankAccesses<'_, '_>,
    index: usize,
    given: &Publishing<'_>,
    ranks: &[RankCalls],
    windows: &Windows,
) -> Result<(), Memory>
    requires rank { (rank_of accesses.now).rank ≡ given.now.rank }
    requires accesses { IsAccessesOf ranks.now accesses.now }
    requires index { index < length (spanned_calls (origin_of ranks.now (rank_of accesses.now))) }
    requires published { AreCalls given.now.published.now }
    ensures { OnOk result (HasMore (IsStoredAt windows.now ranks.now (rank_of accesses.now) given.now index) found.old.items found.new.items) }
{
    add_of_role(found, accesses, index, Role::Local, given, ranks, windows)?;
    add_of_role(found, accesses, index, Role::Origin, given, ranks, windows)?;
    add_of_role(found, accesses, index, Role::Result, given, ranks, windows)?;
    Ok(())
}

/// Adds that of what it does in a role.
fn add_of_role(
    found: &mut Vec<BrokenAssertion>,
    accesses: &RankAccesses<'_, '_>,
    index: usize,
    role: Role,
    given: &Publishing<'_>,
    ranks: &[RankCalls],
    windows: &Windows,
) -> Result<(), Memory>
    requires rank { (rank_of accesses.now).rank ≡ given.now.rank }
    requires accesses { IsAccessesOf ranks.now accesses.now }
    requires index { index < length (spanned_calls (origin_of ranks.now (rank_of accesses.now))) }
    requires published { AreCalls given.now.published.now }
    ensures { OnOk result (HasMore (IsOfIndex ranks.now (rank_of accesses.now) role (IsStoredBy windows.now given.now) index) found.old.items found.new.items) }
{
    match accesses.access(index, role) {
        Some(access) => add_of_access(found, &access, given, windows),
        None => Ok(()),
    }
}

/// Adds those of an access, if it stores to the part.
fn add_of_access(
    found: &mut Vec<BrokenAssertion>,
    access: &Access<'_>,
    given: &Publishing<'_>,
    windows: &Windows,
) -> Result<(), Memory>
    requires own { access.now.name.rank ≡ given.now.rank }
    requires published { AreCalls given.now.published.now }
    ensures { OnOk result (HasMore (IsStoredBy windows.now given.now access.now) found.old.items found.new.items) }
{
    if stores_to(access, given.window, windows) {
        add_of_store(found, access, given)
    } else {
        Ok(())
    }
}

/// Adds those of a store to the part: those of the calls behind it that publish, up to the first that comes behind one by which the
/// store was done.
fn add_of_store(
    found: &mut Vec<BrokenAssertion>,
    access: &Access<'_>,
    given: &Publishing<'_>,
) -> Result<(), Memory>
    requires own { access.now.name.rank ≡ given.now.rank }
    requires published { AreCalls given.now.published.now }
    ensures { OnOk result ((windows : List Window) → is_store access.now.kind ≡ true → MeetsPart windows access.now (Some given.now.window) → HasMore (IsStoredBy windows given.now access.now) found.old.items found.new.items) }
{
    let published = given.published;
    let first = count_before(published, access.call + 1);
    for place in first..published.len() {
        if was_done(access, published, place) {
            return Ok(());
        }
        add_call(found, access, given, published[place])?;
    }
    Ok(())
}

/// Adds that of a store and a call behind it, if that says `nostore`.
fn add_call(
    found: &mut Vec<BrokenAssertion>,
    access: &Access<'_>,
    given: &Publishing<'_>,
    number: u32,
) -> Result<(), Memory>
    requires own { access.now.name.rank ≡ given.now.rank }
    requires publishes { Contains given.now.published.now number }
    requires earlier { access.now.call < number }
    requires since { (v : ℕ) → Contains given.now.published.now v → v < number → IsDoneBy access.now v → ⊥ }
    ensures { OnOk result ((windows : List Window) → is_store access.now.kind ≡ true → MeetsPart windows access.now (Some given.now.window) → HasMore (IsStored windows given.now access.now number) found.old.items found.new.items) }
{
    if let Some(line) = nostore_line(given.calls, number) {
        found.push(BrokenAssertion {
            reason: AssertionReason::Nostore,
            rank: given.rank,
            line,
            other: (given.rank, access.name.line),
        })?;
    }
    Ok(())
}

/// Whether an access is done when its rank enters the call before the one at a place of these, if there is one. Then it is so at the
/// one at that place.
fn was_done(access: &Access<'_>, published: &[u32], place: usize) -> bool
    requires published { AreCalls published.now }
    requires place { place < length published.now }
    ensures done { result ≡ true → (k : ℕ) × (v : ℕ) × (k < place) × (slice_get published.now k ≡ Some v) × IsDoneBy access.now v }
    ensures not_done { result ≡ false → (k v : ℕ) → k < place → slice_get published.now k ≡ Some v → IsDoneBy access.now v → ⊥ }
{
    if place == 0 {
        return false;
    }
    is_done_by(access, published[place - 1])
}

/// Whether an access stores to the part of its rank in a window.
fn stores_to(access: &Access<'_>, window: WindowId, windows: &Windows) -> bool
    ensures { IsTrue result ↔ ((is_store access.now.kind ≡ true) × MeetsPart windows.now access.now (Some window)) }
{
    access.kind.is_store() && meets_part(access, window, windows)
}

/// Whether an access is done when its rank enters its call of a number.
fn is_done_by(access: &Access<'_>, call: u32) -> bool
    requires { call < 2 ^ 31 }
    ensures { IsTrue result ↔ IsDoneBy access.now call }
{
    match access.done {
        Some(point) => point.pos <= 2 * call,
        None => false,
    }
}

/// Whether a byte of an access lies in the part that the rank whose memory it touches has of a window.
fn meets_part(access: &Access<'_>, window: WindowId, windows: &Windows) -> bool
    ensures { IsTrue result ↔ MeetsPart windows.now access.now (Some window) }
{
    match windows.part(window, access.memory) {
        Some(part) => access.bytes.meets_run(run_of_part(part)),
        None => false,
    }
}

/// The bytes of a part.
fn run_of_part(part: Part) -> Run
    requires { part.base ≤ address_limit }
    ensures { result ≡ run_of_part part }
{
    Run {
        start: part.base as i64,
        len: part.size,
    }
}
