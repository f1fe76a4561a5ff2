//! Whether cuts show that neither of two accesses is before the other.
ghost use Rattle.std.specs.Prelude.{◌≡◌, ◌<◌, ◌≤◌, ◌*◌, ◌↔◌, ℕ, IsTrue, Some, length, slice_index, true};
ghost use Rattle.rma_link.specs.Point.{entry, return_of};
ghost use Rattle.rma_clock.specs.Reached.{IsReached};
ghost use Rattle.rma_window.specs.declared.window_id.WindowId.{WindowId};
ghost use Rattle.rma_rules.specs.Access.{IsOnWindowOf};
ghost use Rattle.rma_rules.specs.Kind.{is_own, is_store, is_target, is_update};
ghost use Rattle.rma_rules.specs.Share.{IsThroughSeparate};
ghost use Rattle.rma_rules.specs.Spans.{AreCalls};
ghost use Rattle.rma_rules.specs.Before.{NeedsPublished, NeedsVisible};
ghost use Rattle.rma_cut.specs.Show.{HasStarts, IsFirstPublishing, IsLastVisible, IsNotBeforeIn, IsUnpublished, IsUnseen, ShowRace, Shows};

use crate::closed::{has_entry, has_point, has_return, is_closed, is_cut};
use crate::cuts::Cuts;
use rma_base::{Point, Rank, WinModel};
use rma_link::Links;
use rma_rules::{Access, Spans};
use rma_window::{WindowId, Windows};

/// Whether two cuts show that neither of two accesses is before the other. It takes no memory, and time for each link and each rank.
pub fn check_cuts(
    a: &Access<'_>,
    b: &Access<'_>,
    cuts: &Cuts,
    spans: &Spans,
    windows: &Windows,
    lens: &[u32],
    links: &Links,
) -> bool
    requires a { IsOnWindowOf windows.now a.now }
    requires b { IsOnWindowOf windows.now b.now }
    ensures { IsTrue result ↔ ShowRace links.now lens.now windows.now spans.now a.now b.now cuts.now }
{
    shows(a, b, cuts.first.as_slice(), spans, windows, lens, links)
        && shows(b, a, cuts.second.as_slice(), spans, windows, lens, links)
}

/// Whether a cut is a closed one of the run, and shows that the first access is not before the second.
fn shows(
    a: &Access<'_>,
    b: &Access<'_>,
    cut: &[u32],
    spans: &Spans,
    windows: &Windows,
    lens: &[u32],
    links: &Links,
) -> bool
    requires a { IsOnWindowOf windows.now a.now }
    requires b { IsOnWindowOf windows.now b.now }
    ensures { IsTrue result ↔ Shows links.now lens.now windows.now spans.now a.now b.now cut.now }
{
    is_cut(cut, lens) && is_closed(cut, links) && is_not_before_in(a, b, cut, spans, windows)
}

/// Whether in this state the first access is not yet complete and visible to the second, which starts.
fn is_not_before_in(
    a: &Access<'_>,
    b: &Access<'_>,
    cut: &[u32],
    spans: &Spans,
    windows: &Windows,
) -> bool
    requires a { IsOnWindowOf windows.now a.now }
    requires b { IsOnWindowOf windows.now b.now }
    ensures { IsTrue result ↔ IsNotBeforeIn windows.now spans.now a.now b.now cut.now }
{
    let Some(done) = a.done else {
        return has_starts(cut, b);
    };
    if let Some(window) = needs_visible(a, b, windows) {
        return is_unseen(cut, a.memory, window, done, b.call, spans);
    }
    if let Some(window) = needs_published(a, b, windows) {
        return is_unpublished(cut, a.memory, window, done, b, spans);
    }
    has_starts(cut, b) && !has_point(cut, done)
}

/// Whether a cut has each point at which an access may start.
fn has_starts(cut: &[u32], b: &Access<'_>) -> bool
    ensures { IsTrue result ↔ HasStarts cut.now b.now }
{
    if !has_entry(cut, b.name.rank, b.call) {
        return false;
    }
    match b.opening {
        Some(opening) => has_point(cut, opening),
        None => true,
    }
}

/// Whether the last call that makes updates visible before an access has returned, and what is done at this point was not.
fn is_unseen(
    cut: &[u32],
    rank: Rank,
    window: WindowId,
    done: Point,
    call: u32,
    spans: &Spans,
) -> bool
    ensures { IsTrue result ↔ IsUnseen spans.now rank window done call cut.now }
{
    !has_point(cut, done) && has_last_visible(cut, rank, window, call, spans)
}

/// Whether the last call of the rank before this one that makes updates visible to it has returned, if there is one.
fn has_last_visible(cut: &[u32], rank: Rank, window: WindowId, call: u32, spans: &Spans) -> bool
    ensures { IsTrue result ↔ ((v : ℕ) → IsLastVisible spans.now rank window call v → IsReached cut.now (return_of rank v)) }
{
    let calls = spans.visible(rank, window);
    let n = count_before(calls, call);
    if n == 0 {
        return true;
    }
    has_return(cut, rank, calls[n - 1])
}

/// Whether an access has started, and the first call that publishes what is done at this point was not entered.
fn is_unpublished(
    cut: &[u32],
    rank: Rank,
    window: WindowId,
    done: Point,
    b: &Access<'_>,
    spans: &Spans,
) -> bool
    ensures { IsTrue result ↔ IsUnpublished spans.now rank window done b.now cut.now }
{
    has_starts(cut, b) && lacks_first_publishing(cut, rank, window, done, spans)
}

/// Whether the first call of the rank that publishes its stores and is entered at or after this point was not entered, if there is one.
fn lacks_first_publishing(
    cut: &[u32],
    rank: Rank,
    window: WindowId,
    done: Point,
    spans: &Spans,
) -> bool
    ensures { IsTrue result ↔ ((v : ℕ) → IsFirstPublishing spans.now rank window done v → ¬ IsReached cut.now (entry rank v)) }
{
    let calls = spans.publishing(rank, window);
    let first = count_before(calls, first_entered(done));
    if first < calls.len() {
        !has_entry(cut, rank, calls[first])
    } else {
        true
    }
}

/// The first call that the rank of a point enters there or later.
fn first_entered(p: Point) -> u32
    ensures { (call : ℕ) → (p.pos ≤ 2 * call) ↔ (result ≤ call) }
{
    p.pos - p.pos / 2
}

/// How many of these calls come before a call of the same rank.
fn count_before(calls: &[u32], call: u32) -> usize
    requires { AreCalls calls.now }
    ensures bound { result ≤ length calls.now }
    ensures before { (k : ℕ) → k < result → slice_index calls.now k < call }
    ensures after { (k : ℕ) → result ≤ k → k < length calls.now → call ≤ slice_index calls.now k }
{
    calls.partition_point(|v| *v < call)
}

/// The window of the separate model through which the first is an update, where the second is an access of the rank's own.
fn needs_visible(a: &Access<'_>, b: &Access<'_>, windows: &Windows) -> Option<WindowId>
    requires { IsOnWindowOf windows.now a.now }
    ensures { (window : WindowId) → (result ≡ Some window) ↔ NeedsVisible windows.now a.now b.now window }
{
    if is_update_seen(a, b) {
        separate_window(a, windows)
    } else {
        None
    }
}

/// Whether the first is an update, and the second an access of the rank's own.
fn is_update_seen(a: &Access<'_>, b: &Access<'_>) -> bool
    ensures { IsTrue result ↔ ((is_update a.now.kind ≡ true) × (is_own b.now.kind ≡ true)) }
{
    a.kind.is_update() && !b.kind.is_target()
}

/// The window of the separate model through which the second accesses a target, where the first is a store.
fn needs_published(a: &Access<'_>, b: &Access<'_>, windows: &Windows) -> Option<WindowId>
    requires { IsOnWindowOf windows.now b.now }
    ensures { (window : WindowId) → (result ≡ Some window) ↔ NeedsPublished windows.now a.now b.now window }
{
    if is_store_seen(a, b) {
        separate_window(b, windows)
    } else {
        None
    }
}

/// Whether the first is a store, and the second an access of a target.
fn is_store_seen(a: &Access<'_>, b: &Access<'_>) -> bool
    ensures { IsTrue result ↔ ((is_store a.now.kind ≡ true) × (is_target b.now.kind ≡ true)) }
{
    a.kind.is_store() && b.kind.is_target()
}

/// The window through which an access is made, if that has the separate memory model.
fn separate_window(a: &Access<'_>, windows: &Windows) -> Option<WindowId>
    requires { IsOnWindowOf windows.now a.now }
    ensures { (id : WindowId) → (result ≡ Some id) ↔ IsThroughSeparate windows.now a.now id }
{
    let window = a.window?;
    match windows.model(window) {
        WinModel::Separate => Some(window),
        WinModel::Unified => None,
    }
}
