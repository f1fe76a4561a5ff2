//! The audit of the logs of a run.
ghost use Rattle.std.specs.Prelude.{◌≡◌, ℕ, ◌<◌, ◌≤◌, List, [], length, replicate, slice_index_or, IfOk, IsErr, OnOk, OnErr};
ghost use Rattle.rma_book.specs.inside.RankState.{RankState};
ghost use Rattle.rma_stream.specs.inside.Feeding.{HaveBooks, HaveFewLines, HasRoom, RanOut, with_piece};
ghost use Rattle.rma_stream.specs.inside.Ended.{HasEnded};
ghost use Rattle.rma_stream.specs.inside.Verdict.{IsQuestion};
ghost use Rattle.rma_stream.specs.Explained.{AreExplained};
ghost use Rattle.rma_stream.specs.Findings.{AreFindings, count_of_lines};
ghost use Rattle.rma_stream.specs.Strict.{AreStrictFindings};

use crate::outcome::Outcomes;
use crate::question::Question;
use crate::run::Run;
use rma_base::limits::RANKS;
use rma_base::{Memory, Rank};
use rma_book::{RankBook, SharedSites};
use rma_cut::Cuts;
use rma_report::Findings;
use std::alloc::Global;
use std::marker::Model;

/// The books of all ranks, each of the log of its rank.
#[derive(Drop)]
pub struct Audit {
    /// Where it takes its memory.
    alloc: Global,
    /// The book of each rank.
    books: Vec<RankBook>,
    /// Whether memory ran out while one of them was fed.
    ran_out: bool,
}

impl Model for Audit {
    ghost use Rattle.std.specs.Prelude.{List};
    ghost use Rattle.rma_book.specs.inside.RankState.{RankState};
    ghost use Rattle.rma_stream.specs.inside.Feeding.{AreKept};

    ghost Value = { List RankState };

    ghost view = { λ audit. audit.books.items };

    ghost invariant = { λ audit. AreKept audit.ran_out audit.books.items };
}

impl Audit {
    /// An audit of the logs of `ranks` ranks, of which nothing was read yet.
    pub fn new(alloc: Global, ranks: u32) -> Result<Audit, Memory>
        ensures text { IfOk result (λ audit. HaveBooks ranks audit (replicate ranks [])) }
        ensures ranks { IfOk result (λ audit. length audit ≡ ranks) }
    {
        let sites = SharedSites::new(alloc)?;
        let mut books = Vec::new(alloc);
        for rank in 0..ranks {
            books.push(RankBook::sharing(alloc, Rank(rank), ranks, &sites)?)?;
        }
        Ok(Audit {
            alloc,
            books,
            ran_out: false,
        })
    }

    /// How many bytes of the log of a rank it was fed.
    pub fn fed(&self, rank: Rank) -> u64
        requires { rank.0 < length self.now }
        ensures { (d : RankState) → result ≡ (slice_index_or self.now rank.0 d).text.fed }
    {
        self.books[rank.0 as usize].fed()
    }

    /// Reads the next piece of the log of a rank.
    ///
    /// # Errors
    ///
    /// `Memory` where memory ran out, in this call or in an earlier one: the audit then represents no logs.
    pub fn feed(&mut self, rank: Rank, piece: &[u8]) -> Result<(), Memory>
        requires there { rank.0 < length self.old }
        requires room { HasRoom self.old rank.0 (length piece.now) }
        ensures text { OnOk result ((ranks : ℕ) (texts : List (List ℕ)) → HaveBooks ranks self.old texts → HaveBooks ranks self.new (with_piece texts rank.0 piece.now)) }
        ensures ranks { length self.new ≡ length self.old }
        ensures out { OnErr result (RanOut self.new) }
        ensures stays_out { RanOut self.old → IsErr result }
        ensures nothing { OnErr result ((ranks : ℕ) (texts : List (List ℕ)) → ¬ HaveBooks ranks self.new texts) }
    {
        if self.ran_out {
            return Err(Memory);
        }
        // It stays so unless the piece is read to its end.
        self.ran_out = true;
        let book = &mut self.books[rank.0 as usize];
        book.feed(piece)?;
        self.ran_out = false;
        Ok(())
    }

    /// All logs have ended: the findings of the first failing pass, and how many lines there are.
    ///
    /// # Errors
    ///
    /// `Memory` where memory ran out, in this call or in an earlier one.
    pub fn finish(self) -> Result<Findings, Memory>
        requires { length self ≤ RANKS }
        ensures stays_out { RanOut self → IsErr result }
        ensures findings { IfOk result (λ findings. (texts : List (List ℕ)) → HaveBooks (length texts) self texts
            → (findings.ranks ≡ length texts) × (findings.lines ≡ count_of_lines texts) × AreFindings texts findings.list) }
    {
        Ok(self.ended(Question::Audit)?.findings)
    }

    /// All logs have ended: the findings of a strict audit, which asks assertions and the memory of dynamic windows too where nothing else
    /// is found, and how many lines there are.
    ///
    /// # Errors
    ///
    /// `Memory` where memory ran out, in this call or in an earlier one.
    pub fn finish_strict(self) -> Result<Findings, Memory>
        requires { length self ≤ RANKS }
        ensures stays_out { RanOut self → IsErr result }
        ensures findings { IfOk result (λ findings. (texts : List (List ℕ)) → HaveBooks (length texts) self texts
            → (findings.ranks ≡ length texts) × (findings.lines ≡ count_of_lines texts) × AreStrictFindings texts findings.list) }
    {
        Ok(self.ended(Question::Strict)?.findings)
    }

    /// All logs have ended: the findings of the first failing pass, the least cuts that show the one of this number, counted from 1, where
    /// it is a race, and how many lines there are.
    ///
    /// # Errors
    ///
    /// `Memory` where memory ran out, in this call or in an earlier one.
    pub fn finish_explained(self, number: u32) -> Result<Explained, Memory>
        requires few { length self ≤ RANKS }
        requires number { 1 ≤ number }
        ensures stays_out { RanOut self → IsErr result }
        ensures findings { IfOk result (λ explained. (texts : List (List ℕ)) → HaveBooks (length texts) self texts
            → (explained.findings.ranks ≡ length texts) × (explained.findings.lines ≡ count_of_lines texts) × AreExplained texts number explained.findings.list explained.cuts) }
    {
        self.ended(Question::Explain { number })
    }

    /// All logs have ended: what is found, as it is asked.
    fn ended(self, question: Question) -> Result<Explained, Memory>
        requires few { length self ≤ RANKS }
        requires question { IsQuestion question }
        ensures stays_out { RanOut self → IsErr result }
        ensures findings { IfOk result (λ ended. (texts : List (List ℕ)) → HaveBooks (length texts) self texts → HasEnded question texts ended) }
    {
        if self.ran_out {
            return Err(Memory);
        }
        let ranks = self.books.len() as u32;
        let lines = count_lines(&self.books);
        let outcomes = Outcomes::of(self.alloc, self.books)?;
        let verdict = Run::of(self.alloc, outcomes)?.verdict(self.alloc, question)?;
        let findings = Findings {
            ranks,
            lines,
            list: verdict.found,
        };
        Ok(Explained {
            findings,
            cuts: verdict.cuts,
        })
    }
}

/// What an audit finds, with the cuts that show one of the findings.
#[derive(Drop)]
pub struct Explained {
    /// The findings.
    pub findings: Findings,
    /// The cuts, where that finding is a race.
    pub cuts: Option<Cuts>,
}

/// How many lines the logs have together.
fn count_lines(books: &[RankBook]) -> u64
    requires { length books.now ≤ RANKS }
    ensures lines { (ranks : ℕ) (texts : List (List ℕ)) → HaveBooks ranks books.now texts → result ≡ count_of_lines texts }
    ensures few { (ranks : ℕ) (texts : List (List ℕ)) → HaveBooks ranks books.now texts → HaveFewLines texts }
{
    let mut lines = 0;
    for book in books {
        lines += u64::from(book.lines());
    }
    lines
}
