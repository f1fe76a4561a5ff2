//! The words of questions.
use rma_base::{Point, Rank};
use rma_call::{CallRef, RankCalls};
use rma_table::{Failure, number};

/// A call of a run, by its rank and its number among the calls of that, from 0.
#[derive(Clone, Copy)]
pub struct CallName {
    /// The rank.
    pub rank: Rank,
    /// The number.
    pub number: u32,
}

impl CallName {
    /// The call itself, where the run has one of this name.
    pub fn find(self, calls: &[RankCalls]) -> Option<CallRef<'_>> {
        let own = calls.get(self.rank.0 as usize)?.calls();
        let index = self.number as usize;
        if index < own.len() {
            Some(own.get(index))
        } else {
            None
        }
    }
}

/// The call that a word names, as `RANK:CALL`.
///
/// # Errors
///
/// `Row` where the word has another form.
pub fn call_in(word: &str) -> Result<CallName, Failure> {
    let Some((rank, call)) = word.split_once(':') else {
        return Err(Failure::Row);
    };
    Ok(CallName {
        rank: Rank(number(rank)?),
        number: number(call)?,
    })
}

/// The point that a word names, as `RANK,POINT`.
///
/// # Errors
///
/// `Row` where the word has another form.
pub fn point_in(word: &str) -> Result<Point, Failure> {
    let Some((rank, pos)) = word.split_once(',') else {
        return Err(Failure::Row);
    };
    Ok(Point {
        rank: Rank(number(rank)?),
        pos: number(pos)?,
    })
}

/// The first word of a question, with the words behind it.
pub fn first_of(words: &str) -> (&str, &str) {
    match words.split_once(' ') {
        Some((first, rest)) => (first, rest),
        None => (words, ""),
    }
}
