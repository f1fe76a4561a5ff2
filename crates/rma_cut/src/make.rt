//! The least cuts that show that neither of two accesses is before the other.
ghost use Rattle.std.specs.Prelude.{◌≡◌, ◌^◌, ◌<◌, ◌≤◌, ◌↔◌, ℕ, All, IsTrue, IfOk, Some, length, slice_index, true};
ghost use Rattle.rma_base.specs.declared.point.Point.{Point};
ghost use Rattle.rma_link.specs.declared.links.Links.{Links};
ghost use Rattle.rma_link.specs.Point.{entry, return_of};
ghost use Rattle.rma_clock.specs.Reached.{points_of};
ghost use Rattle.rma_window.specs.declared.window_id.WindowId.{WindowId};
ghost use Rattle.rma_rules.specs.Access.{IsOnWindowOf};
ghost use Rattle.rma_rules.specs.Kind.{is_own, is_update};
ghost use Rattle.rma_rules.specs.Share.{IsThroughSeparate};
ghost use Rattle.rma_rules.specs.Spans.{AreCalls};
ghost use Rattle.rma_rules.specs.Before.{AreReached};
ghost use Rattle.rma_cut.specs.Cut.{IsClosed};
ghost use Rattle.rma_cut.specs.Show.{AreLeast, IsAsked, IsLastVisible, IsLeast};
ghost use Rattle.rma_cut.specs.inside.Asked.{HasAsked, IsHeldBack};

use crate::cuts::{Cut, Cuts};
use crate::search::{Asked, cut_before};
use rma_base::{Memory, Point, Rank, WinModel};
use rma_clock::Clocks;
use rma_rules::{Access, Spans};
use rma_window::{WindowId, Windows};
use std::alloc::Global;

/// The least two cuts that show that neither of two accesses is before the other, where neither is.
///
/// They take 8 bytes a rank. For each rank the clocks are asked by two binary searches over its points, or by up to four where an access
/// waits for an epoch to open.
///
/// # Errors
///
/// `Memory` where there is none left, also where there are more ranks than a run may have.
pub fn cuts_for<C: Clocks>(
    alloc: Global,
    a: &Access<'_>,
    b: &Access<'_>,
    spans: &Spans,
    windows: &Windows,
    lens: &[u32],
    clocks: &C,
) -> Result<Cuts, Memory>
    requires a { IsOnWindowOf windows.now a.now }
    requires b { IsOnWindowOf windows.now b.now }
    requires calls { All (λ calls. calls < 2 ^ 31) lens.now }
    requires clocks { (links : Links) × C.are_of clocks.now (points_of lens.now) links × AreReached (points_of lens.now) spans.now a.now b.now × AreReached (points_of lens.now) spans.now b.now a.now }
    ensures { IfOk result (λ cuts. (links : Links) → C.are_of clocks.now (points_of lens.now) links → IsClosed links (points_of lens.now) → AreReached (points_of lens.now) spans.now a.now b.now → AreReached (points_of lens.now) spans.now b.now a.now
        → AreLeast links lens.now windows.now spans.now a.now b.now cuts) }
{
    let first = least_cut(alloc, a, b, spans, windows, lens, clocks)?;
    let second = least_cut(alloc, b, a, spans, windows, lens, clocks)?;
    Ok(Cuts { first, second })
}

/// The least cut that shows that the first access is not before the second.
///
/// `Memory` where there is none left.
fn least_cut<C: Clocks>(
    alloc: Global,
    a: &Access<'_>,
    b: &Access<'_>,
    spans: &Spans,
    windows: &Windows,
    lens: &[u32],
    clocks: &C,
) -> Result<Cut, Memory>
    requires a { IsOnWindowOf windows.now a.now }
    requires calls { All (λ calls. calls < 2 ^ 31) lens.now }
    requires clocks { (links : Links) × C.are_of clocks.now (points_of lens.now) links × AreReached (points_of lens.now) spans.now a.now b.now }
    ensures { IfOk result (λ cut. (links : Links) → C.are_of clocks.now (points_of lens.now) links → IsClosed links (points_of lens.now) → AreReached (points_of lens.now) spans.now a.now b.now
        → IsLeast links lens.now windows.now spans.now a.now b.now cut) }
{
    let asked = asked_points(a, b, spans, windows);
    cut_before(alloc, &asked, lens, clocks)
}

/// The points that show that the first access is not before the second, where it is not: the return of the last call that makes updates
/// visible before the second, or the points at which that may start.
fn asked_points(a: &Access<'_>, b: &Access<'_>, spans: &Spans, windows: &Windows) -> Asked
    requires { IsOnWindowOf windows.now a.now }
    ensures { (p : Point) → HasAsked result p ↔ IsAsked windows.now spans.now a.now b.now p }
{
    match held_back(a, b, windows) {
        Some(window) => Asked {
            one: last_return(a.memory, window, b.call, spans),
            other: None,
        },
        None => Asked {
            one: Some(entry_of(b.name.rank, b.call)),
            other: b.opening,
        },
    }
}

/// The window of the separate model through which the first is an update that is done, where the second is an access of the rank's own.
fn held_back(a: &Access<'_>, b: &Access<'_>, windows: &Windows) -> Option<WindowId>
    requires { IsOnWindowOf windows.now a.now }
    ensures { (window : WindowId) → (result ≡ Some window) ↔ IsHeldBack windows.now a.now b.now window }
{
    a.done?;
    if is_update_seen(a, b) {
        separate_window(a, windows)
    } else {
        None
    }
}

/// Whether the first is an update, and the second an access of the rank's own.
fn is_update_seen(a: &Access<'_>, b: &Access<'_>) -> bool
    ensures { IsTrue result ↔ ((is_update a.now.kind ≡ true) × (is_own b.now.kind ≡ true)) }
{
    a.kind.is_update() && !b.kind.is_target()
}

/// The window through which an access is made, if that has the separate memory model.
fn separate_window(a: &Access<'_>, windows: &Windows) -> Option<WindowId>
    requires { IsOnWindowOf windows.now a.now }
    ensures { (id : WindowId) → (result ≡ Some id) ↔ IsThroughSeparate windows.now a.now id }
{
    let window = a.window?;
    match windows.model(window) {
        WinModel::Separate => Some(window),
        WinModel::Unified => None,
    }
}

/// Where the last call of a rank before this one that makes updates through a window visible to it returns, if there is one.
fn last_return(rank: Rank, window: WindowId, call: u32, spans: &Spans) -> Option<Point>
    ensures { (p : Point) → (result ≡ Some p) ↔ ((v : ℕ) × IsLastVisible spans.now rank window call v × (p ≡ return_of rank v)) }
{
    let calls = spans.visible(rank, window);
    let n = count_before(calls, call);
    if n == 0 {
        return None;
    }
    Some(return_from(rank, calls[n - 1]))
}

/// How many of these calls come before a call of the same rank.
fn count_before(calls: &[u32], call: u32) -> usize
    requires { AreCalls calls.now }
    ensures bound { result ≤ length calls.now }
    ensures before { (k : ℕ) → k < result → slice_index calls.now k < call }
    ensures after { (k : ℕ) → result ≤ k → k < length calls.now → call ≤ slice_index calls.now k }
{
    calls.partition_point(|v| *v < call)
}

/// Where a rank enters a call.
fn entry_of(rank: Rank, call: u32) -> Point
    requires { call < 2 ^ 31 }
    ensures { result ≡ entry rank call }
{
    Point {
        rank,
        pos: 2 * call,
    }
}

/// Where a rank returns from a call.
fn return_from(rank: Rank, call: u32) -> Point
    requires { call < 2 ^ 31 }
    ensures { result ≡ return_of rank call }
{
    Point {
        rank,
        pos: 2 * call + 1,
    }
}
