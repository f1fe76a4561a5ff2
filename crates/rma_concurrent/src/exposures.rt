//! Exposures in an order in which those of one target stand side by side.
ghost use Rattle.std.specs.Prelude.{◌≡◌, ◌<◌, ◌≤◌, ℕ, IfOk, IsTrue, Some, slice_get, length};
ghost use Rattle.std.specs.List.Sorted.{IsPermutation};
ghost use Rattle.rma_rules.specs.declared.span.Exposure.{Exposure};
ghost use Rattle.rma_concurrent.specs.Concurrent.{IsAtTarget};
ghost use Rattle.rma_concurrent.specs.inside.Places.{AreBeside, ClosesRise, Rise, is_above, is_behind, is_below, is_beside, is_by, is_in_step, kind_place};

use rma_base::{Memory, Rank};
use rma_rules::{Exposure, ExposureKind};
use rma_window::WindowId;
use std::alloc::Global;

/// The exposures by window, by target, by kind, and by the calls that open them.
///
/// # Errors
///
/// `Memory` where there is none left.
pub(crate) fn by_target(alloc: Global, exposures: &[Exposure]) -> Result<Vec<Exposure>, Memory>
    ensures permutation { IfOk result (λ list. IsPermutation exposures.now list.items) }
    ensures rise { IfOk result (λ list. Rise list.items) }
{
    let mut list = Vec::from_slice(alloc, exposures)?;
    sort(&mut list);
    Ok(list)
}

/// Sorts exposures.
fn sort(list: &mut Vec<Exposure>)
    ensures permutation { IsPermutation list.old.items list.new.items }
    ensures rise { Rise list.new.items }
{
    list.sort_unstable_by_key(|own| (own.window.0, own.target.0, kind_place(own.kind), own.opener));
}

/// The place of a kind among the kinds.
fn kind_place(kind: ExposureKind) -> u32
    ensures { result ≡ kind_place kind }
{
    match kind {
        ExposureKind::Posted => 0,
        ExposureKind::Fenced => 1,
    }
}

/// Where the exposures of a window stand, at one target or at all: the index of the first, and that behind the last.
pub(crate) fn range_of(list: &[Exposure], window: WindowId, target: Option<Rank>) -> (usize, usize)
    requires { Rise list.now }
    ensures bound { result.1 ≤ length list.now }
    ensures all { (k : ℕ) (own : Exposure) → slice_get list.now k ≡ Some own → own.window ≡ window → IsAtTarget target own.target → (result.0 ≤ k) × (k < result.1) }
{
    let start = list.partition_point(|own| is_below(own, window, target));
    let end = list.partition_point(|own| !is_above(own, window, target));
    (start, end)
}

/// Whether an exposure comes before those of a window at this target.
fn is_below(own: &Exposure, window: WindowId, target: Option<Rank>) -> bool
    ensures { result ≡ is_below window.0 target own.now }
{
    match target {
        Some(target) => {
            own.window.0 < window.0 || (own.window.0 == window.0 && own.target.0 < target.0)
        }
        None => own.window.0 < window.0,
    }
}

/// Whether it comes behind them.
fn is_above(own: &Exposure, window: WindowId, target: Option<Rank>) -> bool
    ensures { result ≡ is_above window.0 target own.now }
{
    match target {
        Some(target) => {
            window.0 < own.window.0 || (window.0 == own.window.0 && target.0 < own.target.0)
        }
        None => window.0 < own.window.0,
    }
}

/// The index behind the last exposure that stands beside the one at this index.
pub(crate) fn end_of_group(list: &[Exposure], first: usize) -> usize
    requires rise { Rise list.now }
    requires first { first < length list.now }
    ensures bound { result ≤ length list.now }
    ensures progress { first < result }
    ensures beside { AreBeside list.now first result }
{
    let of = &list[first];
    list.partition_point(|own| !is_behind(of, own))
}

/// Whether the second is of a window, a target or a kind that comes behind those of the first.
fn is_behind(a: &Exposure, b: &Exposure) -> bool
    ensures { result ≡ is_behind a.now b.now }
{
    if a.window.0 != b.window.0 {
        return a.window.0 < b.window.0;
    }
    if a.target.0 != b.target.0 {
        return a.target.0 < b.target.0;
    }
    kind_place(a.kind) < kind_place(b.kind)
}

/// Whether of any two exposures that stand side by side the first closes no later.
pub(crate) fn closes_rise(list: &[Exposure]) -> bool
    requires { Rise list.now }
    ensures { IsTrue result → ClosesRise list.now }
{
    list.is_sorted_by(|a, b| is_in_step(a, b))
}

/// Whether two stand side by side, and the first closes no later, or do not.
fn is_in_step(a: &Exposure, b: &Exposure) -> bool
    ensures { result ≡ is_in_step a.now b.now }
{
    !is_beside(a, b) || is_by(a.close, b.close)
}

/// Whether two exposures are of one window, one target and one kind.
fn is_beside(a: &Exposure, b: &Exposure) -> bool
    ensures { result ≡ is_beside a.now b.now }
{
    a.window.0 == b.window.0
        && (a.target.0 == b.target.0 && kind_place(a.kind) == kind_place(b.kind))
}

/// Whether a call comes no later than another one, if there is one.
pub(crate) fn is_by(first: Option<u32>, second: Option<u32>) -> bool
    ensures { result ≡ is_by first second }
{
    match (first, second) {
        (_, None) => true,
        (None, Some(_)) => false,
        (Some(first), Some(second)) => first <= second,
    }
}
