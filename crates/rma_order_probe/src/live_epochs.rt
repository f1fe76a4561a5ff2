//! The epochs of a rank, as its calls come.
use crate::epoch::{print_epoch, print_placed};
use rma_base::Rank;
use rma_call::RankCalls;
use rma_epoch::{LiveEpochs, Taken};
use rma_table::Failure;
use rma_window::Windows;
use std::io;

/// Prints what comes of the calls of a rank that are taken one by one, and then their epochs.
///
/// # Errors
///
/// `Memory` where there is none left.
pub fn print_taken(rt: HostRuntime, windows: &Windows, own: &RankCalls) -> Result<(), Failure> {
    let mut live = LiveEpochs::new(rt.alloc());
    take_all(rt, windows, own, &mut live)?;
    Ok(print_live(rt, windows, own.rank(), &live)?)
}

/// Takes the calls of a rank, and prints what comes of each.
fn take_all(
    rt: HostRuntime,
    windows: &Windows,
    own: &RankCalls,
    live: &mut LiveEpochs,
) -> Result<(), Failure> {
    let calls = own.calls();
    for number in 0..calls.len() {
        let taken = live.take(windows, calls.get(number))?;
        print_outcome(rt, own.rank(), number, taken)?;
    }
    Ok(())
}

/// Prints what comes of the call of a number, where that is anything.
fn print_outcome(rt: HostRuntime, rank: Rank, number: usize, taken: Taken) -> io::Result<()> {
    if let Some(reason) = taken.reason {
        println!(rt;
            "= {} call {number} is refused by {}",
            rank.0,
            reason.word()
        )?;
    }
    if let Some(epoch) = taken.epoch {
        println!(rt; "= {} call {number} stands in epoch {epoch}", rank.0)?;
    }
    if let Some(epoch) = taken.closes {
        println!(rt; "= {} call {number} closes epoch {epoch}", rank.0)?;
    }
    Ok(())
}

/// Prints the epochs of the calls taken, how many these are, whether an epoch is open, and the accesses that stand in them.
fn print_live(rt: HostRuntime, windows: &Windows, rank: Rank, live: &LiveEpochs) -> io::Result<()> {
    for epoch in live.epochs() {
        print_epoch(rt, windows, rank, epoch)?;
    }
    let end = if live.is_unclosed() { "open" } else { "closed" };
    println!(rt; "= {} taken {} and {end}", rank.0, live.taken())?;
    print_accesses(rt, rank, live)
}

/// Prints the accesses among the calls taken that stand in an epoch.
fn print_accesses(rt: HostRuntime, rank: Rank, live: &LiveEpochs) -> io::Result<()> {
    for placed in live.placed() {
        print_placed(rt, rank, *placed)?;
        if live.epoch_of(placed.call) != Some(placed.epoch) {
            println!(rt; "= {} call {} is not told", rank.0, placed.call)?;
        }
    }
    Ok(())
}
