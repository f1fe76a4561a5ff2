//! In which order the bytes of logs are read.
use rma_table::Failure;
use std::alloc::Global;

/// In which order the bytes of logs are read.
#[derive(Clone, Copy, Debug, PartialEq, Eq)]
pub enum Order {
    /// Each log whole, from rank 0 on.
    RankByRank,
    /// A byte of each log in turn.
    ByteByByte,
    /// The log of the last rank before the others.
    LastRankFirst,
}

impl Order {
    /// The pieces in which logs are read so: pairs of a rank, and how many bytes of its log come next.
    ///
    /// # Errors
    ///
    /// `Row` where there are more logs than a run may have, and `Memory` where there is none left.
    pub fn cuts_of(self, alloc: Global, logs: &[String]) -> Result<Vec<(u32, u32)>, Failure> {
        let Ok(ranks) = u32::try_from(logs.len()) else {
            return Err(Failure::Row);
        };
        match self {
            Order::RankByRank => Ok(Vec::new(alloc)),
            Order::ByteByByte => bytes_in_turn(alloc, ranks, longest_of(logs)),
            Order::LastRankFirst => last_first(alloc, ranks),
        }
    }
}

/// A byte of each of so many logs, as often as the longest one has bytes.
fn bytes_in_turn(alloc: Global, ranks: u32, longest: usize) -> Result<Vec<(u32, u32)>, Failure> {
    let mut cuts = Vec::new(alloc);
    for _ in 0..longest {
        push_turn(&mut cuts, ranks)?;
    }
    Ok(cuts)
}

/// Appends a byte of each of so many logs.
fn push_turn(cuts: &mut Vec<(u32, u32)>, ranks: u32) -> Result<(), Failure> {
    for rank in 0..ranks {
        cuts.push((rank, 1))?;
    }
    Ok(())
}

/// All bytes of the last of so many logs, if there is one.
fn last_first(alloc: Global, ranks: u32) -> Result<Vec<(u32, u32)>, Failure> {
    let mut cuts = Vec::new(alloc);
    if ranks > 0 {
        cuts.push((ranks - 1, u32::MAX))?;
    }
    Ok(cuts)
}

/// How many bytes the longest of some logs has.
fn longest_of(logs: &[String]) -> usize {
    let mut longest = 0;
    for log in logs {
        longest = log.len().max(longest);
    }
    longest
}
