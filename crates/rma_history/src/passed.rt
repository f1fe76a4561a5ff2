//! Which accesses are before all those that are still to come.
ghost use Rattle.std.specs.Prelude.{◌≡◌, ◌<◌, ◌≤◌, ◌^◌, ◌↔◌, ℕ, List, Some, Contains, IsTrue, length, slice_index, true};
ghost use Rattle.rma_link.specs.declared.links.Links.{Links};
ghost use Rattle.rma_link.specs.Order.{IsAtOrBefore};
ghost use Rattle.rma_link.specs.Point.{entry, return_of};
ghost use Rattle.rma_clock.specs.Reached.{IsReached};
ghost use Rattle.rma_window.specs.declared.window_id.WindowId.{WindowId};
ghost use Rattle.rma_rules.specs.Access.{IsOnWindowOf};
ghost use Rattle.rma_rules.specs.Before.{IsMadeVisible};
ghost use Rattle.rma_rules.specs.Kind.{is_update};
ghost use Rattle.rma_rules.specs.Share.{IsSeparate, IsThroughSeparate};
ghost use Rattle.rma_rules.specs.Spans.{AreCalls};
ghost use Rattle.rma_history.specs.History.{AreEntered, AreKnown, ArePublishing, IsPassed};
ghost use Rattle.rma_history.specs.inside.Passed.{AreBehind, IsPublishedForAll, IsPublishedToAll, IsVisibleToNext};

use crate::horizon::Horizon;
use crate::next_calls::{entry_of, next_call};
use rma_base::{Point, Rank, WinModel};
use rma_clock::Clocks;
use rma_rules::{Access, Spans};
use rma_window::{WindowId, Windows};

/// Whether an access is before all those of its memory that are still to come.
///
/// It may say no of one that is. That one is then kept, and costs its memory and a question with each access that comes. It asks of each
/// rank that has a next call whether the access is done before that, unless the horizon knows it, of an update also whether the rank
/// whose memory it touches sees it before its own next call, and of a store also whether it is published, before each next call, to each
/// window of the separate model: also to one in which its rank has no part, or that it has freed.
pub(crate) fn is_passed<C: Clocks>(
    a: &Access<'_>,
    next: &[Option<u32>],
    lists: &Spans,
    windows: &Windows,
    clocks: &C,
    horizon: &mut Horizon,
) -> bool
    requires { (points : List ℕ) × (links : Links) × C.are_of clocks.now points links × AreKnown points windows.now lists.now next.now a.now }
    ensures passed { (points : List ℕ) (links : Links) → C.are_of clocks.now points links → AreKnown points windows.now lists.now next.now a.now → AreBehind links next.now horizon.old
        → IsTrue result → IsPassed links windows.now lists.now next.now a.now }
    ensures behind { (points : List ℕ) (links : Links) → C.are_of clocks.now points links → AreKnown points windows.now lists.now next.now a.now → AreBehind links next.now horizon.old → AreBehind links next.now horizon.new }
{
    let Some(done) = a.done else {
        return false;
    };
    if !horizon.passes(done, next, clocks) {
        return false;
    }
    if !is_visible_to_next(a, done, next, lists, windows, clocks) {
        return false;
    }
    is_published_for_all(a, done, next, lists, windows, clocks, horizon)
}

/// Whether an update through a window of the separate model, done by this point, is visible to the rank whose memory it touches before
/// the next call of that, if it has one.
fn is_visible_to_next<C: Clocks>(
    a: &Access<'_>,
    done: Point,
    next: &[Option<u32>],
    lists: &Spans,
    windows: &Windows,
    clocks: &C,
) -> bool
    requires window { IsOnWindowOf windows.now a.now }
    requires clocks { (points : List ℕ) × (links : Links) × C.are_of clocks.now points links × IsReached points done × AreEntered points next.now }
    ensures { (points : List ℕ) (links : Links) → C.are_of clocks.now points links → IsReached points done → AreEntered points next.now → IsTrue result → IsVisibleToNext links windows.now lists.now next.now a.now done }
{
    let Some(window) = update_window(a, windows) else {
        return true;
    };
    match next_call(next, a.memory) {
        Some(call) => is_made_visible(a.memory, window, done, call, lists, clocks),
        None => true,
    }
}

/// The window of the separate model through which an access is an update, if it is one.
fn update_window(a: &Access<'_>, windows: &Windows) -> Option<WindowId>
    requires { IsOnWindowOf windows.now a.now }
    ensures { (id : WindowId) → is_update a.now.kind ≡ true → IsThroughSeparate windows.now a.now id → result ≡ Some id }
{
    if !a.kind.is_update() {
        return None;
    }
    let window = a.window?;
    match windows.model(window) {
        WinModel::Separate => Some(window),
        WinModel::Unified => None,
    }
}

/// Whether a call of the rank before this one makes visible to it what was done by this point through the window. The last such
/// call alone is asked: what an earlier one makes visible, that one does too.
fn is_made_visible<C: Clocks>(
    rank: Rank,
    window: WindowId,
    done: Point,
    call: u32,
    lists: &Spans,
    clocks: &C,
) -> bool
    requires { (points : List ℕ) × (links : Links) × C.are_of clocks.now points links × IsReached points done × IsReached points (entry rank call) }
    ensures { (points : List ℕ) (links : Links) → C.are_of clocks.now points links → IsReached points done → IsReached points (entry rank call) → IsTrue result ↔ IsMadeVisible links lists.now rank window done call }
{
    let calls = lists.visible(rank, window);
    let n = count_before(calls, call);
    if n == 0 {
        return false;
    }
    clocks.leq(done, return_from(rank, calls[n - 1]))
}

/// How many of these calls come before a call of the same rank.
fn count_before(calls: &[u32], call: u32) -> usize
    requires { AreCalls calls.now }
    ensures bound { result ≤ length calls.now }
    ensures before { (k : ℕ) → k < result → slice_index calls.now k < call }
    ensures after { (k : ℕ) → result ≤ k → k < length calls.now → call ≤ slice_index calls.now k }
{
    calls.partition_point(|v| *v < call)
}

/// Whether a store that is done by this point is published to each window of the separate model before all that is still to come.
fn is_published_for_all<C: Clocks>(
    a: &Access<'_>,
    done: Point,
    next: &[Option<u32>],
    lists: &Spans,
    windows: &Windows,
    clocks: &C,
    horizon: &mut Horizon,
) -> bool
    requires { (points : List ℕ) × (links : Links) × C.are_of clocks.now points links × IsReached points done × AreEntered points next.now × ArePublishing points lists.now a.now.memory }
    ensures published { (points : List ℕ) (links : Links) → C.are_of clocks.now points links → IsReached points done → AreEntered points next.now → ArePublishing points lists.now a.now.memory
        → AreBehind links next.now horizon.old → IsTrue result → IsPublishedForAll links windows.now lists.now next.now a.now done }
    ensures behind { (points : List ℕ) (links : Links) → C.are_of clocks.now points links → IsReached points done → AreEntered points next.now → ArePublishing points lists.now a.now.memory
        → AreBehind links next.now horizon.old → AreBehind links next.now horizon.new }
{
    !a.kind.is_store()
        || is_published_everywhere(a.memory, done, next, lists, windows, clocks, horizon)
}

/// Whether a call of the rank publishes to each window of the separate model what was done by this point, before the next call of each
/// rank that has one.
fn is_published_everywhere<C: Clocks>(
    rank: Rank,
    done: Point,
    next: &[Option<u32>],
    lists: &Spans,
    windows: &Windows,
    clocks: &C,
    horizon: &mut Horizon,
) -> bool
    requires { (points : List ℕ) × (links : Links) × C.are_of clocks.now points links × IsReached points done × AreEntered points next.now × ArePublishing points lists.now rank }
    ensures published { (points : List ℕ) (links : Links) → C.are_of clocks.now points links → IsReached points done → AreEntered points next.now → ArePublishing points lists.now rank
        → AreBehind links next.now horizon.old → IsTrue result → (window : WindowId) → IsSeparate windows.now window → IsPublishedToAll links lists.now next.now rank window done }
    ensures behind { (points : List ℕ) (links : Links) → C.are_of clocks.now points links → IsReached points done → AreEntered points next.now → ArePublishing points lists.now rank
        → AreBehind links next.now horizon.old → AreBehind links next.now horizon.new }
{
    let Ok(count) = u32::try_from(windows.len()) else {
        return false;
    };
    'windows: for number in 0..count {
        let window = WindowId(number);
        if !is_published_to(rank, window, done, next, lists, windows, clocks, horizon) {
            return false;
        }
    }
    true
}

/// Whether a call of the rank publishes to the window what was done by this point, before the next call of each rank that has one, if
/// the window has the separate model.
fn is_published_to<C: Clocks>(
    rank: Rank,
    window: WindowId,
    done: Point,
    next: &[Option<u32>],
    lists: &Spans,
    windows: &Windows,
    clocks: &C,
    horizon: &mut Horizon,
) -> bool
    requires window { window.0 < length windows.now }
    requires clocks { (points : List ℕ) × (links : Links) × C.are_of clocks.now points links × IsReached points done × AreEntered points next.now × ArePublishing points lists.now rank }
    ensures published { (points : List ℕ) (links : Links) → C.are_of clocks.now points links → IsReached points done → AreEntered points next.now → ArePublishing points lists.now rank
        → AreBehind links next.now horizon.old → IsTrue result → IsSeparate windows.now window → IsPublishedToAll links lists.now next.now rank window done }
    ensures behind { (points : List ℕ) (links : Links) → C.are_of clocks.now points links → IsReached points done → AreEntered points next.now → ArePublishing points lists.now rank
        → AreBehind links next.now horizon.old → AreBehind links next.now horizon.new }
{
    match windows.model(window) {
        WinModel::Separate => is_published(rank, window, done, next, lists, clocks, horizon),
        WinModel::Unified => true,
    }
}

/// Whether a call of the rank publishes to the window what was done by this point, before the next call of each rank that has one. The
/// first such call alone is asked: what comes after another one comes after that.
fn is_published<C: Clocks>(
    rank: Rank,
    window: WindowId,
    done: Point,
    next: &[Option<u32>],
    lists: &Spans,
    clocks: &C,
    horizon: &mut Horizon,
) -> bool
    requires { (points : List ℕ) × (links : Links) × C.are_of clocks.now points links × IsReached points done × AreEntered points next.now × ArePublishing points lists.now rank }
    ensures published { (points : List ℕ) (links : Links) → C.are_of clocks.now points links → IsReached points done → AreEntered points next.now → ArePublishing points lists.now rank
        → AreBehind links next.now horizon.old → IsTrue result → IsPublishedToAll links lists.now next.now rank window done }
    ensures behind { (points : List ℕ) (links : Links) → C.are_of clocks.now points links → IsReached points done → AreEntered points next.now → ArePublishing points lists.now rank
        → AreBehind links next.now horizon.old → AreBehind links next.now horizon.new }
{
    let calls = lists.publishing(rank, window);
    let first = first_entered_after(rank, done, calls, clocks);
    if first < calls.len() {
        horizon.passes(entry_of(rank, calls[first]), next, clocks)
    } else {
        false
    }
}

/// The index of the first of a rank's calls that it enters at or after this point, by a binary search.
fn first_entered_after<C: Clocks>(rank: Rank, done: Point, calls: &[u32], clocks: &C) -> usize
    requires calls { AreCalls calls.now }
    requires clocks { (points : List ℕ) × (links : Links) × C.are_of clocks.now points links × IsReached points done × ((v : ℕ) → Contains calls.now v → IsReached points (entry rank v)) }
    ensures bound { result ≤ length calls.now }
    ensures before { (points : List ℕ) (links : Links) → C.are_of clocks.now points links → IsReached points done → ((v : ℕ) → Contains calls.now v → IsReached points (entry rank v)) → (k : ℕ) → k < result → ¬ IsAtOrBefore links done (entry rank (slice_index calls.now k)) }
    ensures after { (points : List ℕ) (links : Links) → C.are_of clocks.now points links → IsReached points done → ((v : ℕ) → Contains calls.now v → IsReached points (entry rank v)) → (k : ℕ) → result ≤ k → k < length calls.now → IsAtOrBefore links done (entry rank (slice_index calls.now k)) }
{
    let mut low = 0;
    let mut high = calls.len();
    'search: while low < high {
        let middle = low + (high - low) / 2;
        if clocks.leq(done, entry_of(rank, calls[middle])) {
            high = middle;
        } else {
            low = middle + 1;
        }
    }
    low
}

/// Where a rank returns from a call.
fn return_from(rank: Rank, call: u32) -> Point
    requires { call < 2 ^ 31 }
    ensures { result ≡ return_of rank call }
{
    Point {
        rank,
        pos: 2 * call + 1,
    }
}
