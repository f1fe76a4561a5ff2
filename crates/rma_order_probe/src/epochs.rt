//! The epochs of the ranks of a run, and the accesses that stand in them.
use crate::epoch::{print_epoch, print_placed};
use crate::live_epochs::print_taken;
use rma_accesses::{RankEpochs, RunEpochs};
use rma_base::Rank;
use rma_call::RankCalls;
use rma_epoch::{EpochTable, Placed};
use rma_table::{Failure, number};
use rma_window::Windows;
use std::io;

/// Prints the epochs of each rank, how many of its calls are sound, and the accesses that stand in the epochs; and then the answers to what
/// is asked: `take RANK` what comes of the calls of a rank that are taken one by one.
///
/// # Errors
///
/// `Row` where something else is asked, and `Memory` where there is none left.
pub fn answer(rt: HostRuntime, calls: &[RankCalls], asked: &[String]) -> Result<(), Failure> {
    let epochs = RunEpochs::of(rt.alloc(), calls)?;
    print_ranks(rt, &epochs)?;
    for words in asked {
        answer_question(rt, &epochs, words)?;
    }
    Ok(())
}

/// Prints the epochs of all ranks.
fn print_ranks(rt: HostRuntime, epochs: &RunEpochs<'_>) -> io::Result<()> {
    for own in epochs.ranks.as_slice() {
        print_rank(rt, &epochs.windows, own)?;
    }
    Ok(())
}

/// Prints the epochs of a rank, how many of its calls are sound, and its accesses.
fn print_rank(rt: HostRuntime, windows: &Windows, own: &RankEpochs<'_>) -> io::Result<()> {
    let rank = own.own.rank();
    for epoch in own.table.epochs() {
        print_epoch(rt, windows, rank, epoch)?;
    }
    println!(rt; "= {} sound {}", rank.0, own.table.sound())?;
    print_accesses(rt, rank, own)
}

/// Prints the accesses of a rank that stand in its epochs.
fn print_accesses(rt: HostRuntime, rank: Rank, own: &RankEpochs<'_>) -> io::Result<()> {
    for placed in own.table.placed() {
        print_placed(rt, rank, *placed)?;
        if !is_told(own, *placed) {
            println!(rt; "= {} call {} is not told", rank.0, placed.call)?;
        }
    }
    print_others(rt, rank, own)
}

/// Whether the table tells of an access its epoch, the window of that, and a part of the target.
fn is_told(own: &RankEpochs<'_>, placed: Placed) -> bool {
    let number = placed.call as usize;
    if number >= own.calls.len() {
        return false;
    }
    let what = own.calls.what_number(number);
    let Some(epoch) = own.table.epochs().get(placed.epoch as usize) else {
        return false;
    };
    own.table.epoch_of(placed.call) == Some(placed.epoch)
        && own.table.parts().window(what) == Some(epoch.window)
        && own.table.parts().part(what).is_some()
}

/// Prints that further calls have epochs, where they do.
fn print_others(rt: HostRuntime, rank: Rank, own: &RankEpochs<'_>) -> io::Result<()> {
    if count_placed(&own.table, own.calls.len()) != own.table.placed().len() {
        println!(rt; "= {} other calls have epochs", rank.0)?;
    }
    Ok(())
}

/// How many of the first calls of a rank have epochs.
fn count_placed(table: &EpochTable, calls: usize) -> usize {
    let mut count = 0usize;
    for number in 0..calls {
        if has_epoch(table, number) {
            count = count.saturating_add(1);
        }
    }
    count
}

/// Whether the call of a number has an epoch.
fn has_epoch(table: &EpochTable, number: usize) -> bool {
    match u32::try_from(number) {
        Ok(number) => table.epoch_of(number).is_some(),
        Err(_) => false,
    }
}

/// Prints the answer to a question.
fn answer_question(rt: HostRuntime, epochs: &RunEpochs<'_>, words: &str) -> Result<(), Failure> {
    let Some(rank) = words.strip_prefix("take ") else {
        return Err(Failure::Row);
    };
    match epochs.ranks.get(number(rank)? as usize) {
        Some(own) => print_taken(rt, &epochs.windows, own.own),
        None => Err(Failure::Row),
    }
}
