//! The lists beside the accesses of a run.
use crate::text::name_of;
use rma_base::Rank;
use rma_call::RankCalls;
use rma_rules::{Exposure, ExposureKind, LockSpan, Post, Spans};
use rma_table::Failure;
use rma_window::{WindowId, Windows};
use std::io;

/// Prints the calls of each rank that publish its stores to a window and that make updates visible to it, the exposure epochs, the lock
/// epochs and the posts. A call is told by its number among those of its rank, from 0.
pub fn print_lists(
    rt: HostRuntime,
    calls: &[RankCalls],
    windows: &Windows,
    lists: &Spans,
) -> Result<(), Failure> {
    for own in calls {
        print_owner(rt, own.rank(), windows, lists)?;
    }
    for exposure in lists.exposures() {
        print_exposure(rt, windows, exposure)?;
    }
    for lock in lists.locks() {
        print_lock(rt, windows, lock)?;
    }
    for post in lists.posts() {
        print_post(rt, windows, post)?;
    }
    Ok(())
}

/// Prints those calls of a rank, by window.
fn print_owner(rt: HostRuntime, rank: Rank, windows: &Windows, lists: &Spans) -> io::Result<()> {
    for number in 0..windows.len() {
        if let Ok(number) = u32::try_from(number) {
            let window = WindowId(number);
            let name = name_of(windows, window);
            print_calls(rt, rank, "publishes", name, lists.publishing(rank, window))?;
            print_calls(rt, rank, "sees", name, lists.visible(rank, window))?;
        }
    }
    Ok(())
}

/// Prints some calls of a rank on a window, if there are any.
fn print_calls(
    rt: HostRuntime,
    rank: Rank,
    what: &str,
    name: &str,
    calls: &[u32],
) -> io::Result<()> {
    if calls.is_empty() {
        return Ok(());
    }
    print!(rt; "= {} {what} {name}", rank.0)?;
    for call in calls {
        print!(rt; " {call}")?;
    }
    println!(rt; "")
}

/// Prints an exposure epoch.
fn print_exposure(rt: HostRuntime, windows: &Windows, exposure: &Exposure) -> io::Result<()> {
    let kind = match exposure.kind {
        ExposureKind::Posted => "posted",
        ExposureKind::Fenced => "fenced",
    };
    print!(rt;
        "= {} {kind} {} {}",
        exposure.target.0,
        name_of(windows, exposure.window),
        exposure.opener
    )?;
    print_close(rt, exposure.close)?;
    println!(rt; " line {}", exposure.opened.0)
}

/// Prints a lock epoch.
fn print_lock(rt: HostRuntime, windows: &Windows, lock: &LockSpan) -> io::Result<()> {
    print!(rt; "= {} locks {}", lock.rank.0, name_of(windows, lock.window))?;
    match lock.target {
        Some(target) => print!(rt; " of {} {}", target.0, lock.opener)?,
        None => print!(rt; " of all {}", lock.opener)?,
    }
    print_close(rt, lock.close)?;
    println!(rt; " line {}", lock.line.0)
}

/// Prints the call that closes an epoch, if one does.
fn print_close(rt: HostRuntime, close: Option<u32>) -> io::Result<()> {
    match close {
        Some(close) => print!(rt; " to {close}"),
        None => print!(rt; " to the end"),
    }
}

/// Prints a post.
fn print_post(rt: HostRuntime, windows: &Windows, post: &Post) -> io::Result<()> {
    println!(rt;
        "= {} posts {} {} line {}",
        post.rank.0,
        name_of(windows, post.window),
        post.call,
        post.line.0
    )
}
