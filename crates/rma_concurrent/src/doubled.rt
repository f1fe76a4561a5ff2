//! Posts between two fences of an exposure.
ghost use Rattle.std.specs.Prelude.{◌≡◌, ◌<◌, ◌≤◌, ◌↔◌, ℕ, All, IsTrue, OnOk, Some, length, slice_get};
ghost use Rattle.rma_rules.specs.declared.span.ExposureKind.TheVariants.{Fenced};
ghost use Rattle.rma_rules.specs.declared.span.Exposure.{Exposure};
ghost use Rattle.rma_concurrent.specs.Concurrent.{IsDoubledBy, StandsBetween};
ghost use Rattle.rma_concurrent.specs.inside.Places.{AreBeside, ClosesRise, HasMore, IsFrom, IsOf, Rise};

use crate::exposures::{closes_rise, end_of_group, is_by, range_of};
use rma_base::Memory;
use rma_finding::DoubledPost;
use rma_rules::{Exposure, ExposureKind, Post};
use rma_window::Windows;

/// Adds the reports of some posts, by the exposures in their order.
///
/// # Errors
///
/// `Memory`, and then nothing is said of what is listed.
pub(crate) fn add_posts(
    found: &mut Vec<DoubledPost>,
    posts: &[Post],
    list: &[Exposure],
    windows: &Windows,
) -> Result<(), Memory>
    requires rise { Rise list.now }
    requires windows { All (λ post. post.window.0 < length windows.now) posts.now }
    ensures { OnOk result (HasMore (IsOf (λ post. IsOf (IsDoubledBy windows.now post) list.now) posts.now) found.old.items found.new.items) }
{
    let rise = closes_rise(list);
    for post in posts {
        add_post(found, post, list, rise, windows)?;
    }
    Ok(())
}

/// Adds those of one post: of the exposures of its rank and window those that stand side by side are asked. `rise` says that of any two
/// of these the first closes no later.
fn add_post(
    found: &mut Vec<DoubledPost>,
    post: &Post,
    list: &[Exposure],
    rise: bool,
    windows: &Windows,
) -> Result<(), Memory>
    requires rise { Rise list.now }
    requires closes { IsTrue rise → ClosesRise list.now }
    requires window { post.now.window.0 < length windows.now }
    ensures { OnOk result (HasMore (IsOf (IsDoubledBy windows.now post.now) list.now) found.old.items found.new.items) }
{
    let (start, end) = range_of(list, post.window, Some(post.rank));
    let mut first = start;
    'groups: while first < end {
        let behind = end_of_group(list, first);
        add_group(found, post, list, rise, first, behind, windows)?;
        first = behind;
    }
    Ok(())
}

/// Adds those of one post and the exposures from one index up to another, which stand side by side. Where those begin that do not open
/// before the post is found by a binary search; of the others the last ones are asked. Where the calls that close them rise too, this
/// ends at the first that closes before the post: so do all before it.
fn add_group(
    found: &mut Vec<DoubledPost>,
    post: &Post,
    list: &[Exposure],
    rise: bool,
    first: usize,
    behind: usize,
    windows: &Windows,
) -> Result<(), Memory>
    requires rise { Rise list.now }
    requires closes { IsTrue rise → ClosesRise list.now }
    requires beside { AreBeside list.now first behind }
    requires bounds { (first ≤ behind) × (behind ≤ length list.now) }
    requires window { post.now.window.0 < length windows.now }
    ensures { OnOk result (HasMore (IsFrom (IsDoubledBy windows.now post.now) list.now first behind) found.old.items found.new.items) }
{
    let mut last = begun_before(post, list, first, behind);
    'back: while first < last {
        let own = &list[last - 1];
        if rise && is_by(own.close, Some(post.call)) {
            return Ok(());
        }
        add_pair(found, post, own, windows)?;
        last -= 1;
    }
    Ok(())
}

/// The index from which on exposures that stand side by side do not open before a post, by a binary search.
fn begun_before(post: &Post, list: &[Exposure], first: usize, behind: usize) -> usize
    requires rise { Rise list.now }
    requires beside { AreBeside list.now first behind }
    requires bounds { (first ≤ behind) × (behind ≤ length list.now) }
    ensures bounds { (first ≤ result) × (result ≤ behind) }
    ensures after { (k : ℕ) (own : Exposure) → result ≤ k → k < behind → slice_get list.now k ≡ Some own → post.now.call ≤ own.opener }
{
    let mut low = first;
    let mut high = behind;
    'search: while low < high {
        let middle = low + (high - low) / 2;
        if post.call <= list[middle].opener {
            high = middle;
        } else {
            low = middle + 1;
        }
    }
    high
}

/// Adds the report of a post and an exposure, where it stands between the fences of this.
fn add_pair(
    found: &mut Vec<DoubledPost>,
    post: &Post,
    exposure: &Exposure,
    windows: &Windows,
) -> Result<(), Memory>
    requires { post.now.window.0 < length windows.now }
    ensures { OnOk result (HasMore (IsDoubledBy windows.now post.now exposure.now) found.old.items found.new.items) }
{
    if stands_between(post, exposure) {
        add_report(found, post, exposure, windows)
    } else {
        Ok(())
    }
}

/// Adds the report of a post between the fences of an exposure.
fn add_report(
    found: &mut Vec<DoubledPost>,
    post: &Post,
    exposure: &Exposure,
    windows: &Windows,
) -> Result<(), Memory>
    requires window { post.now.window.0 < length windows.now }
    requires between { StandsBetween post.now exposure.now }
    ensures { OnOk result (HasMore (IsDoubledBy windows.now post.now exposure.now) found.old.items found.new.items) }
{
    let report = DoubledPost {
        window: windows.name(post.window).copy()?,
        target: post.rank,
        post: post.line,
        opened: exposure.opened,
    };
    found.push(report)?;
    Ok(())
}

/// Whether a post stands between the fences of an exposure of its rank and window.
fn stands_between(post: &Post, exposure: &Exposure) -> bool
    ensures { IsTrue result ↔ StandsBetween post.now exposure.now }
{
    let is_there = exposure.window == post.window && exposure.target == post.rank;
    if !is_there || exposure.kind != ExposureKind::Fenced || post.call <= exposure.opener {
        return false;
    }
    match exposure.close {
        Some(close) => post.call < close,
        None => false,
    }
}
