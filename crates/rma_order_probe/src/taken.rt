//! Calls that are taken one by one.
use crate::asked::CallName;
use rma_base::Rank;
use rma_call::RankCalls;
use rma_match::LiveMatch;
use rma_table::{Failure, number};
use std::alloc::Global;

/// Which calls of a run match, where the next calls of these ranks are taken, in this order.
///
/// # Errors
///
/// `Row` where a word is no rank of the run, or the rank makes no more calls, and `Memory` where there is none left.
pub fn taken(alloc: Global, calls: &[RankCalls], ranks: &str) -> Result<LiveMatch, Failure> {
    let Ok(count) = u32::try_from(calls.len()) else {
        return Err(Failure::Row);
    };
    let mut live = LiveMatch::new(alloc, count)?;
    take_all(alloc, &mut live, calls, ranks)?;
    Ok(live)
}

/// Takes the next calls of these ranks.
fn take_all(
    alloc: Global,
    live: &mut LiveMatch,
    calls: &[RankCalls],
    ranks: &str,
) -> Result<(), Failure> {
    let mut next = vec![in alloc; 0u32; calls.len()]?;
    for word in ranks.split(' ') {
        take_next(live, calls, &mut next, Rank(number(word)?))?;
    }
    Ok(())
}

/// Takes the next call of a rank, by the numbers of the next calls of all ranks.
fn take_next(
    live: &mut LiveMatch,
    calls: &[RankCalls],
    next: &mut [u32],
    rank: Rank,
) -> Result<(), Failure> {
    let Some(number) = next.get_mut(rank.0 as usize) else {
        return Err(Failure::Row);
    };
    take(
        live,
        calls,
        CallName {
            rank,
            number: *number,
        },
    )?;
    *number = number.saturating_add(1);
    Ok(())
}

/// Takes a call.
fn take(live: &mut LiveMatch, calls: &[RankCalls], name: CallName) -> Result<(), Failure> {
    match name.find(calls) {
        Some(call) => Ok(live.take(name.rank, name.number, call)?),
        None => Err(Failure::Row),
    }
}
