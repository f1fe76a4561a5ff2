//! The runs of rows.
use rma_table::{Failure, number, unescaped};
use std::alloc::Global;
use std::str::from_utf8;

/// As many logs as a row may have.
const LOGS: u32 = 64;

/// What a row on a run gives.
#[derive(Drop)]
pub struct RunRow {
    /// The logs, by rank.
    pub logs: Vec<String>,
    /// What is asked: the words behind `ask`.
    pub asked: Vec<String>,
    /// Whether the logs have just the bytes that the row gives, and no header and no end beside them.
    raw: bool,
}

impl RunRow {
    /// What the lines of a row give: behind `ranks N` (`ranks2 N`: version 2) it has N logs with a header and an end each, and behind
    /// `raw N` N logs with nothing; a line of a log stands behind the number of its rank, or behind `*` where all logs have it, and in
    /// raw logs a text with backslashes; and a question behind `ask`.
    ///
    /// # Errors
    ///
    /// `Row` where a line is none of these, and `Memory` where there is none left.
    pub fn of(alloc: Global, lines: &[String]) -> Result<RunRow, Failure> {
        let mut run = RunRow {
            logs: Vec::new(alloc),
            asked: Vec::new(alloc),
            raw: false,
        };
        for line in lines {
            run.take(alloc, line)?;
        }
        run.end()?;
        Ok(run)
    }

    /// Takes the next line.
    fn take(&mut self, alloc: Global, line: &str) -> Result<(), Failure> {
        let Some((first, rest)) = line.split_once(' ') else {
            return Err(Failure::Row);
        };
        match first {
            "ranks" => self.start(alloc, rest, 1),
            "ranks2" => self.start(alloc, rest, 2),
            "raw" => self.start_raw(alloc, rest),
            "ask" => Ok(self.asked.push(String::from_str(alloc, rest)?)?),
            "*" => self.add_to_all(alloc, rest),
            _ => self.add(alloc, number(first)?, rest),
        }
    }

    /// Ends each log, where they are not raw.
    fn end(&mut self) -> Result<(), Failure> {
        if !self.raw {
            for log in self.logs.iter_mut() {
                log.push_str("end\n")?;
            }
        }
        Ok(())
    }

    /// Gives the row so many logs of a version of the format.
    fn start(&mut self, alloc: Global, count: &str, version: u32) -> Result<(), Failure> {
        let count = few(count)?;
        for rank in 0..count {
            self.logs
                .push(format!(in alloc; "rma {version} {rank} {count}\n")?)?;
        }
        Ok(())
    }

    /// Gives the row so many empty logs.
    fn start_raw(&mut self, alloc: Global, count: &str) -> Result<(), Failure> {
        self.raw = true;
        for _ in 0..few(count)? {
            self.logs.push(String::new(alloc))?;
        }
        Ok(())
    }

    /// Adds a line to each log.
    fn add_to_all(&mut self, alloc: Global, line: &str) -> Result<(), Failure> {
        for log in self.logs.iter_mut() {
            push_line(alloc, log, self.raw, line)?;
        }
        Ok(())
    }

    /// Adds a line to the log of a rank.
    fn add(&mut self, alloc: Global, rank: u32, line: &str) -> Result<(), Failure> {
        match self.logs.get_mut(rank as usize) {
            Some(log) => push_line(alloc, log, self.raw, line),
            None => Err(Failure::Row),
        }
    }
}

/// The number of logs that a word is.
fn few(word: &str) -> Result<u32, Failure> {
    let count = number(word)?;
    if count > LOGS {
        return Err(Failure::Row);
    }
    Ok(count)
}

/// Appends a line to a log, or what a text means to a raw one.
fn push_line(alloc: Global, log: &mut String, raw: bool, line: &str) -> Result<(), Failure> {
    if raw {
        return push_unescaped(alloc, log, line);
    }
    log.push_str(line)?;
    Ok(log.push('\n')?)
}

/// Appends what a text with backslashes means, where that is text.
fn push_unescaped(alloc: Global, log: &mut String, text: &str) -> Result<(), Failure> {
    let bytes = unescaped(alloc, text)?;
    match from_utf8(&bytes) {
        Ok(text) => Ok(log.push_str(text)?),
        Err(_) => Err(Failure::Row),
    }
}
