//! The words for epochs.
use rma_base::{Rank, RankSet};
use rma_epoch::{Epoch, EpochKind, Placed, Targets};
use rma_window::{WindowId, Windows};
use std::io;

/// Prints an epoch of a rank: its kind, its window, whom it reaches, or who may access the rank in it, and the calls that open and
/// close it.
pub fn print_epoch(
    rt: HostRuntime,
    windows: &Windows,
    rank: Rank,
    epoch: &Epoch,
) -> io::Result<()> {
    print!(rt;
        "= {} {} {}",
        rank.0,
        word(epoch.kind),
        name_of(windows, epoch.window)
    )?;
    print_targets(rt, &epoch.targets)?;
    print!(rt; " from {}", epoch.opener)?;
    match epoch.close {
        Some(close) => println!(rt; " to {close}"),
        None => println!(rt; " to the end"),
    }
}

/// The word for a kind.
fn word(kind: EpochKind) -> &'static str {
    match kind {
        EpochKind::Fence => "fence",
        EpochKind::Start => "start",
        EpochKind::Lock { exclusive: true } => "lock exclusive",
        EpochKind::Lock { exclusive: false } => "lock shared",
        EpochKind::LockAll => "lockall",
        EpochKind::Post => "post",
    }
}

/// The name of a window, where it is one of these.
fn name_of(windows: &Windows, window: WindowId) -> &str {
    if (window.0 as usize) < windows.len() {
        windows.name(window).text()
    } else {
        "no window"
    }
}

/// Prints the ranks of an epoch.
fn print_targets(rt: HostRuntime, targets: &Targets) -> io::Result<()> {
    match targets {
        Targets::All => print!(rt; " all"),
        Targets::One(rank) => print!(rt; " {}", rank.0),
        Targets::Group(ranks) => print_group(rt, ranks),
    }
}

/// Prints the ranks of a group.
fn print_group(rt: HostRuntime, ranks: &RankSet) -> io::Result<()> {
    let mut before = " ";
    for rank in ranks.numbers() {
        print!(rt; "{before}{rank}")?;
        before = ",";
    }
    Ok(())
}

/// Prints an access of a rank with the epoch in which it stands, by its place among those of the rank.
pub fn print_placed(rt: HostRuntime, rank: Rank, placed: Placed) -> io::Result<()> {
    println!(rt;
        "= {} call {} in epoch {}",
        rank.0, placed.call, placed.epoch
    )
}
