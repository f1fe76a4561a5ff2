//! The logs that rows give.
use crate::words::word_and_rest;
use rma_base::Rank;
use rma_table::{Failure, number, unescaped};
use std::alloc::Global;

/// The lines of a log of rank 0 among two before those of a row, where it gives what stands in the life of a window.
const WINDOW: &str = "rma 1 0 2\nwin create W world 4096 64 1 unified same_op_no_op\n";

/// The lines behind them.
const FREE: &str = "win free W\nend\n";

/// The log of a rank.
#[derive(Drop)]
pub struct GivenLog {
    /// The rank whose log it is.
    pub rank: Rank,
    /// How many ranks there are.
    pub ranks: u32,
    /// Its bytes.
    pub bytes: Vec<u8>,
    /// Where the pieces end behind which is told what is known of it.
    pub stops: Vec<usize>,
}

/// Whether a line of a row begins a log.
pub fn begins_log(line: &str) -> bool {
    line == "window" || line.starts_with("of ")
}

/// The lines before the one that begins the next log.
pub fn lines_to_next(lines: &[String]) -> &[String] {
    match lines.iter().position(|line| begins_log(line)) {
        Some(count) => &lines[..count],
        None => lines,
    }
}

impl GivenLog {
    /// The log that a line begins, with these behind it: `of R N` begins the log of rank R among N, and `window` that of rank 0 among two
    /// with the lines of a window before and behind those of the row. Behind `>` stands a line, and behind `feed` a piece with
    /// backslashes.
    ///
    /// # Errors
    ///
    /// `Row` where a line is none of these, and `Memory` where there is none left.
    pub fn of(alloc: Global, first: &str, lines: &[String]) -> Result<GivenLog, Failure> {
        let mut log = GivenLog::begun_by(alloc, first)?;
        for line in lines {
            log.take(alloc, line)?;
        }
        if first == "window" {
            log.bytes.extend_from_slice(FREE.as_bytes())?;
        }
        Ok(log)
    }

    /// The log that a line begins.
    fn begun_by(alloc: Global, first: &str) -> Result<GivenLog, Failure> {
        if first == "window" {
            return Ok(GivenLog {
                rank: Rank(0),
                ranks: 2,
                bytes: Vec::from_slice(alloc, WINDOW.as_bytes())?,
                stops: Vec::new(alloc),
            });
        }
        let (_, numbers) = word_and_rest(first);
        let (rank, ranks) = word_and_rest(numbers);
        Ok(GivenLog {
            rank: Rank(number(rank)?),
            ranks: number(ranks)?,
            bytes: Vec::new(alloc),
            stops: Vec::new(alloc),
        })
    }

    /// Takes the next line of a row.
    fn take(&mut self, alloc: Global, line: &str) -> Result<(), Failure> {
        let (word, text) = word_and_rest(line);
        match word {
            ">" => {
                self.bytes.extend_from_slice(text.as_bytes())?;
                Ok(self.bytes.push(b'\n')?)
            }
            "feed" => {
                self.bytes.extend_from_slice(&unescaped(alloc, text)?)?;
                Ok(self.stops.push(self.bytes.len())?)
            }
            _ => Err(Failure::Row),
        }
    }
}
