//! Cuts that a row asks of.
use rma_base::{Memory, Sequence};
use rma_cut::{Cut, Cuts};
use rma_table::{Failure, number};
use std::alloc::Global;

/// Two cuts, and the race that they may show.
#[derive(Drop)]
pub struct GivenCuts {
    /// The number of the race among those of the run, counted from 1.
    pub race: u32,
    /// The cuts.
    pub cuts: Cuts,
}

/// The number of a race and two cuts, each the numbers of all ranks with commas between them.
///
/// # Errors
///
/// `Row` where the words are not these, and `Memory` where there is none left.
pub fn given_in(alloc: Global, words: &str) -> Result<GivenCuts, Failure> {
    let Some((race, rest)) = words.split_once(' ') else {
        return Err(Failure::Row);
    };
    let Some((first, second)) = rest.split_once(' ') else {
        return Err(Failure::Row);
    };
    let race = number(race)?;
    let first = cut_in(alloc, first)?;
    let second = cut_in(alloc, second)?;
    Ok(GivenCuts {
        race,
        cuts: Cuts { first, second },
    })
}

/// The cut of a word.
fn cut_in(alloc: Global, word: &str) -> Result<Cut, Failure> {
    let mut cut = Sequence::new(alloc);
    for part in word.split(',') {
        cut.push(number(part)?)?;
    }
    Ok(cut)
}

/// The cut of these numbers, of which the one at an index is one less.
///
/// # Errors
///
/// `Memory` where there is none left.
pub fn with_less(alloc: Global, numbers: &[u32], index: usize) -> Result<Cut, Memory> {
    let mut cut = Sequence::new(alloc);
    for i in 0..numbers.len() {
        let number = numbers[i];
        cut.push(if i == index {
            number.saturating_sub(1)
        } else {
            number
        })?;
    }
    Ok(cut)
}
