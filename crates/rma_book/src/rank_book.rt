//! The log of one rank, as its bytes come.
ghost use Rattle.std.specs.Prelude.{◌≡◌, ℕ, ◌+◌, ◌<◌, ◌≤◌, List, [], ◌++◌, length, take, is_some, is_err, IfOk, IsErr, OnOk, OnErr, false};
ghost use Rattle.rma_lex.specs.Checked.{checked_lines};
ghost use Rattle.rma_lex.specs.Line.{lines};
ghost use Rattle.rma_log.specs.Calls.{calls_of, end_line};
ghost use Rattle.rma_log.specs.Ends.{IsEnd};
ghost use Rattle.rma_log.specs.Logs.{AreGoodUntil, IsFirstFault, entries, whole_lines};
ghost use Rattle.rma_book.specs.inside.RankState.{RanOut, ReadsPart, Represents};

use rma_base::limits::{FED, LINE};
use rma_base::{LineNo, Memory, Rank};
use rma_call::CallList;
use rma_lex::LineCutter;
use rma_log::{BookEnd, FormFault, Reader, read_lines};
use rma_reader::SharedSites;
use std::alloc::Global;
use std::marker::Model;

/// So many bytes of a piece are read together: what is brought near for them is near still when their lines are read.
const PART: usize = 2_048;

/// The log of one rank: the book of its good lines, its first bad line, and the rest that is no whole line yet.
#[derive(Drop)]
pub struct RankBook {
    cutter: LineCutter,
    reader: Reader,
    /// The first bad line in the pieces that were read.
    fault: Option<FormFault>,
    /// Whether memory ran out, so that no more can be said of the log.
    ran_out: bool,
}

impl Model for RankBook {
    ghost use Rattle.rma_book.specs.inside.RankState.{RankState};

    ghost Value = { RankState };

    ghost view = { λ log. record { text = log.cutter; reader = log.reader; fault = log.fault; ran_out = log.ran_out } };
}

impl RankBook {
    /// The book of a rank among so many logs, which was fed nothing.
    pub fn new(alloc: Global, rank: Rank, logs: u32) -> Result<RankBook, Memory>
        ensures { IfOk result (λ log. Represents rank.0 logs log []) }
    {
        RankBook::sharing(alloc, rank, logs, &SharedSites::new(alloc)?)
    }

    /// The same, where the log shares the texts of its sites with other logs of the run.
    pub fn sharing(
        alloc: Global,
        rank: Rank,
        logs: u32,
        sites: &SharedSites,
    ) -> Result<RankBook, Memory>
        ensures { IfOk result (λ log. Represents rank.0 logs log []) }
    {
        let reader = Reader::new(alloc, rank, logs, sites)?;
        Ok(RankBook {
            cutter: LineCutter::new(alloc),
            fault: reader.fault,
            reader,
            ran_out: false,
        })
    }

    /// How many bytes it was fed.
    pub fn fed(&self) -> u64
        ensures fed { result ≡ self.now.text.fed }
        ensures limit { result ≤ FED }
    {
        self.cutter.fed()
    }

    /// Reads the next piece of the log.
    ///
    /// # Errors
    ///
    /// `Memory` where memory ran out, in this call or in an earlier one: the book then represents no log, but the first bad
    /// line that it had stays.
    pub fn feed(&mut self, piece: &[u8]) -> Result<(), Memory>
        requires goes_on { self.old.text.closed ≡ false }
        requires fits { self.old.text.fed + length piece.now ≤ FED }
        ensures text { OnOk result ((rank logs : ℕ) (bytes : List ℕ) → Represents rank logs self.old bytes → Represents rank logs self.new (bytes ++ piece.now)) }
        ensures fed { OnOk result (self.new.text.fed ≡ self.old.text.fed + length piece.now) }
        ensures kept { OnOk result (length self.new.text.rest ≤ LINE + 1) }
        ensures open { self.new.text.closed ≡ false }
        ensures out { self.new.ran_out ≡ is_err result }
        ensures stays_out { RanOut self.old → IsErr result }
        ensures nothing { OnErr result ((rank logs : ℕ) (bytes : List ℕ) → ¬ Represents rank logs self.new bytes) }
        ensures fault { OnErr result (self.new.fault ≡ self.old.fault) }
    {
        if self.ran_out {
            return Err(Memory);
        }
        // It stays so unless the piece is read to its end.
        self.ran_out = true;
        let mut rest = self.read_part(piece)?;
        'parts: while !rest.is_empty() {
            rest = self.read_part(rest)?;
        }
        self.fault = self.reader.fault;
        self.ran_out = false;
        Ok(())
    }

    /// Reads the first bytes of a piece of the log, and answers the rest of it.
    fn read_part<'a>(&mut self, piece: &'a [u8]) -> Result<&'a [u8], Memory>
        requires goes_on { self.old.text.closed ≡ false }
        requires fits { self.old.text.fed + length piece.now ≤ FED }
        ensures read { IfOk result (λ rest. (part : List ℕ) × (piece.now ≡ part ++ rest.now) × ReadsPart self.old.text self.new.text self.old.reader self.new.reader part) }
        ensures smaller { IfOk result (λ rest. 0 < length piece.now → length rest.now < length piece.now) }
        ensures kept { OnOk result (length self.new.text.rest ≤ LINE + 1) }
        ensures open { self.new.text.closed ≡ false }
        ensures same { self.new ≡ record self.old { text = self.new.text; reader = self.new.reader } }
    {
        let (part, rest) = piece.split_at(piece.len().min(PART));
        self.cutter.feed(part)?;
        self.reader.prefetch(part);
        read_lines(&mut self.cutter, &mut self.reader)?;
        self.cutter.shorten();
        Ok(rest)
    }

    /// How many lines the log has so far, a last one without a line feed too.
    pub fn lines(&self) -> u32
        ensures text { (rank logs : ℕ) (bytes : List ℕ) → Represents rank logs self.now bytes → result ≡ length (lines bytes) }
        ensures bound { result ≤ FED }
    {
        self.cutter.lines()
    }

    /// The first bad line among the whole lines so far.
    pub fn state(&self) -> Option<FormFault>
        ensures first { (rank logs : ℕ) (bytes : List ℕ) → Represents rank logs self.now bytes → IsFirstFault rank logs (whole_lines bytes) result }
        ensures fault { result ≡ self.now.fault }
    {
        self.fault
    }

    /// The calls of the whole lines so far that stand before the first bad one.
    pub fn read_calls(&self) -> &CallList
        ensures { (rank logs : ℕ) (bytes : List ℕ) → Represents rank logs self.now bytes
            → (count : ℕ) × AreGoodUntil rank logs (whole_lines bytes) count × (result.now.calls ≡ calls_of (entries (take count (whole_lines bytes)))) }
    {
        self.reader.lines.calls()
    }

    /// Whether the end of the log is among the whole lines so far that stand before the first bad one.
    pub fn ended(&self) -> bool
        ensures { (rank logs : ℕ) (bytes : List ℕ) → Represents rank logs self.now bytes
            → (count : ℕ) × AreGoodUntil rank logs (whole_lines bytes) count × (result ≡ is_some (end_line (entries (take count (whole_lines bytes))))) }
    {
        self.reader.end.is_some()
    }

    /// The log has ended: its calls, or its first bad line.
    ///
    /// # Errors
    ///
    /// `Memory` where memory ran out, in this call or in an earlier one.
    pub fn end(mut self) -> Result<BookEnd, Memory>
        ensures end { IfOk result (λ end. (rank logs : ℕ) (bytes : List ℕ) → Represents rank logs self bytes → IsEnd rank logs (checked_lines bytes) end) }
        ensures stays_out { RanOut self → IsErr result }
    {
        if self.ran_out {
            return Err(Memory);
        }
        self.cutter.close();
        read_lines(&mut self.cutter, &mut self.reader)?;
        let after = LineNo(self.cutter.lines() + 1);
        Ok(self.reader.end(after))
    }
}
