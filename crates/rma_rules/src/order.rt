//! Which access is complete, and visible to another, before that starts (MPI 4.0, "One-Sided Communications").
ghost use Rattle.std.specs.Prelude.{◌≡◌, ◌^◌, ◌≤◌, length, slice_index, ◌↔◌, ◌<◌, ℕ, List, Some, All, Contains, IsTrue, true};
ghost use Rattle.rma_link.specs.declared.links.Links.{Links};
ghost use Rattle.rma_link.specs.Point.{entry, return_of};
ghost use Rattle.rma_link.specs.Order.{IsAtOrBefore};
ghost use Rattle.rma_clock.specs.Reached.{IsReached};
ghost use Rattle.rma_window.specs.declared.window_id.WindowId.{WindowId};
ghost use Rattle.rma_rules.specs.Access.{IsOnWindowOf};
ghost use Rattle.rma_rules.specs.Kind.{is_own, is_store, is_target, is_update};
ghost use Rattle.rma_rules.specs.Spans.{AreCalls, publishing_of, visible_of};
ghost use Rattle.rma_rules.specs.Before.{AreReached, Before, IsBeforeStart, IsMadeVisible, IsPublished, NeedsPublished, NeedsVisible};

use crate::access::Access;
use crate::part::separate_window;
use crate::spans::Spans;
use rma_base::{Point, Rank};
use rma_clock::Clocks;
use rma_window::{WindowId, Windows};

/// Whether an access is complete, and visible to another one of the same memory, before that starts.
///
/// An update through a window of the separate model, beside an access of the rank's own, is so where a call of that rank before
/// the access makes it visible ([`Spans::add_visible`]); a store, beside an access of a target through such a window, where a call
/// publishes it ([`Spans::add_publishing`]); and any other access where it is done before a start of the other. One that is never
/// done is before none. It takes no memory; the clocks are asked once or twice, or a logarithm of the publishing calls.
pub fn before<C: Clocks>(
    a: &Access<'_>,
    b: &Access<'_>,
    spans: &Spans,
    windows: &Windows,
    clocks: &C,
) -> bool
    requires a { IsOnWindowOf windows.now a.now }
    requires b { IsOnWindowOf windows.now b.now }
    requires clocks { (points : List ℕ) × (links : Links) × C.are_of clocks.now points links × AreReached points spans.now a.now b.now }
    ensures { (points : List ℕ) (links : Links) → C.are_of clocks.now points links → AreReached points spans.now a.now b.now → IsTrue result ↔ Before links windows.now spans.now a.now b.now }
{
    let Some(done) = a.done else {
        return false;
    };
    if let Some(window) = needs_visible(a, b, windows) {
        return is_made_visible(a.memory, window, done, b.call, spans, clocks);
    }
    if let Some(window) = needs_published(a, b, windows) {
        return is_published(a.memory, window, done, b, spans, clocks);
    }
    is_before_start(done, b, clocks)
}

/// The window of the separate model through which the first is an update, where the second is an access of the rank's own.
fn needs_visible(a: &Access<'_>, b: &Access<'_>, windows: &Windows) -> Option<WindowId>
    requires { IsOnWindowOf windows.now a.now }
    ensures { (window : WindowId) → (result ≡ Some window) ↔ NeedsVisible windows.now a.now b.now window }
{
    if is_update_seen(a, b) {
        separate_window(a, windows)
    } else {
        None
    }
}

/// Whether the first is an update, and the second an access of the rank's own.
fn is_update_seen(a: &Access<'_>, b: &Access<'_>) -> bool
    ensures { IsTrue result ↔ ((is_update a.now.kind ≡ true) × (is_own b.now.kind ≡ true)) }
{
    a.kind.is_update() && !b.kind.is_target()
}

/// The window of the separate model through which the second accesses a target, where the first is a store.
fn needs_published(a: &Access<'_>, b: &Access<'_>, windows: &Windows) -> Option<WindowId>
    requires { IsOnWindowOf windows.now b.now }
    ensures { (window : WindowId) → (result ≡ Some window) ↔ NeedsPublished windows.now a.now b.now window }
{
    if is_store_seen(a, b) {
        separate_window(b, windows)
    } else {
        None
    }
}

/// Whether the first is a store, and the second an access of a target.
fn is_store_seen(a: &Access<'_>, b: &Access<'_>) -> bool
    ensures { IsTrue result ↔ ((is_store a.now.kind ≡ true) × (is_target b.now.kind ≡ true)) }
{
    a.kind.is_store() && b.kind.is_target()
}

/// Whether a call of the rank before this one makes visible to it what was done by this point through the window. The last such
/// call alone is asked: what an earlier one makes visible, that one does too.
fn is_made_visible<C: Clocks>(
    rank: Rank,
    window: WindowId,
    done: Point,
    call: u32,
    spans: &Spans,
    clocks: &C,
) -> bool
    requires { (points : List ℕ) × (links : Links) × C.are_of clocks.now points links × IsReached points done × ((v : ℕ) → Contains (visible_of spans.now rank window) v → v < call → IsReached points (return_of rank v)) }
    ensures { (points : List ℕ) (links : Links) → C.are_of clocks.now points links → IsReached points done → ((v : ℕ) → Contains (visible_of spans.now rank window) v → v < call → IsReached points (return_of rank v)) → IsTrue result ↔ IsMadeVisible links spans.now rank window done call }
{
    let calls = spans.visible(rank, window);
    let n = count_before(calls, call);
    if n == 0 {
        return false;
    }
    clocks.leq(done, return_from(rank, calls[n - 1]))
}

/// How many of these calls come before a call of the same rank.
fn count_before(calls: &[u32], call: u32) -> usize
    requires { AreCalls calls.now }
    ensures bound { result ≤ length calls.now }
    ensures before { (k : ℕ) → k < result → slice_index calls.now k < call }
    ensures after { (k : ℕ) → result ≤ k → k < length calls.now → call ≤ slice_index calls.now k }
{
    calls.partition_point(|v| *v < call)
}

/// Whether a call of the rank publishes what was done by this point to the window, before an access starts. The first such call
/// alone is asked: what starts after another one starts after that.
fn is_published<C: Clocks>(
    rank: Rank,
    window: WindowId,
    done: Point,
    b: &Access<'_>,
    spans: &Spans,
    clocks: &C,
) -> bool
    requires { (points : List ℕ) × (links : Links) × C.are_of clocks.now points links × IsReached points done × All (IsReached points) b.now.starts × ((v : ℕ) → Contains (publishing_of spans.now rank window) v → IsReached points (entry rank v)) }
    ensures { (points : List ℕ) (links : Links) → C.are_of clocks.now points links → IsReached points done → All (IsReached points) b.now.starts → ((v : ℕ) → Contains (publishing_of spans.now rank window) v → IsReached points (entry rank v)) → IsTrue result ↔ IsPublished links spans.now rank window done b.now }
{
    let calls = spans.publishing(rank, window);
    let first = first_entered_after(rank, done, calls, clocks);
    if first < calls.len() {
        is_before_start(entry_of(rank, calls[first]), b, clocks)
    } else {
        false
    }
}

/// Whether a point is at or before one at which an access starts.
fn is_before_start<C: Clocks>(p: Point, b: &Access<'_>, clocks: &C) -> bool
    requires { (points : List ℕ) × (links : Links) × C.are_of clocks.now points links × IsReached points p × All (IsReached points) b.now.starts }
    ensures { (points : List ℕ) (links : Links) → C.are_of clocks.now points links → IsReached points p → All (IsReached points) b.now.starts → IsTrue result ↔ IsBeforeStart links p b.now }
{
    if clocks.leq(p, entry_of(b.name.rank, b.call)) {
        return true;
    }
    match b.opening {
        Some(opening) => clocks.leq(p, opening),
        None => false,
    }
}

/// Where a rank enters a call.
fn entry_of(rank: Rank, call: u32) -> Point
    requires { call < 2 ^ 31 }
    ensures { result ≡ entry rank call }
{
    Point {
        rank,
        pos: 2 * call,
    }
}

/// Where a rank returns from a call.
fn return_from(rank: Rank, call: u32) -> Point
    requires { call < 2 ^ 31 }
    ensures { result ≡ return_of rank call }
{
    Point {
        rank,
        pos: 2 * call + 1,
    }
}

/// The index of the first of a rank's calls that it enters at or after this point, by a binary search.
fn first_entered_after<C: Clocks>(rank: Rank, done: Point, calls: &[u32], clocks: &C) -> usize
    requires calls { AreCalls calls.now }
    requires clocks { (points : List ℕ) × (links : Links) × C.are_of clocks.now points links × IsReached points done × ((v : ℕ) → Contains calls.now v → IsReached points (entry rank v)) }
    ensures bound { result ≤ length calls.now }
    ensures before { (points : List ℕ) (links : Links) → C.are_of clocks.now points links → IsReached points done → ((v : ℕ) → Contains calls.now v → IsReached points (entry rank v)) → (k : ℕ) → k < result → ¬ IsAtOrBefore links done (entry rank (slice_index calls.now k)) }
    ensures after { (points : List ℕ) (links : Links) → C.are_of clocks.now points links → IsReached points done → ((v : ℕ) → Contains calls.now v → IsReached points (entry rank v)) → (k : ℕ) → result ≤ k → k < length calls.now → IsAtOrBefore links done (entry rank (slice_index calls.now k)) }
{
    let mut low = 0;
    let mut high = calls.len();
    'search: while low < high {
        let middle = low + (high - low) / 2;
        if clocks.leq(done, entry_of(rank, calls[middle])) {
            high = middle;
        } else {
            low = middle + 1;
        }
    }
    low
}
