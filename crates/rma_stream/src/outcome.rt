//! The outcomes of all logs.
ghost use Rattle.std.specs.Prelude.{◌≡◌, ◌≤◌, ℕ, List, [], length, IfOk, OnOk, ◌++◌, ◌∷◌};
ghost use Rattle.rma_log.specs.declared.fault.BookEnd.{BookEnd};
ghost use Rattle.rma_stream.specs.inside.Feeding.{HaveBooks};
ghost use Rattle.rma_stream.specs.inside.Outcome.{AreOutcomes};
ghost use Rattle.rma_stream.specs.Findings.{AreEnds};

use rma_base::limits::RANKS;
use rma_base::{Memory, Rank, Sequence};
use rma_book::{BookEnd, RankBook};
use rma_call::RankCalls;
use rma_report::{Finding, FindingList};
use std::alloc::Global;

/// The outcomes of some logs.
#[derive(Drop)]
pub(crate) struct Outcomes {
    /// The first bad lines, by rank.
    pub(crate) bad: FindingList,
    /// The calls of the logs without one, by rank.
    pub(crate) calls: Vec<RankCalls>,
}

impl Outcomes {
    /// The outcomes of the logs of these books.
    pub(crate) fn of(alloc: Global, books: Vec<RankBook>) -> Result<Outcomes, Memory>
        requires { length books.items ≤ RANKS }
        ensures { IfOk result (λ them. (texts : List (List ℕ)) → HaveBooks (length texts) books.items texts
            → (ends : List BookEnd) × AreEnds (length texts) 0 texts ends × AreOutcomes ends them) }
    {
        let mut them = Outcomes {
            bad: Sequence::new(alloc),
            calls: Vec::new(alloc),
        };
        let mut rank = 0;
        for book in books {
            them.push(Rank(rank), book.end()?)?;
            rank += 1;
        }
        Ok(them)
    }

    /// Appends the outcome of the log of a rank.
    fn push(&mut self, rank: Rank, end: BookEnd) -> Result<(), Memory>
        ensures { OnOk result ((before : List BookEnd) → rank.0 ≡ length before → AreOutcomes before self.old → AreOutcomes (before ++ end ∷ []) self.new) }
    {
        match end {
            BookEnd::Calls(calls) => self.calls.push(calls)?,
            BookEnd::Fault(fault) => self.bad.push(Finding::Malformed {
                rank,
                line: fault.line,
                reason: fault.reason,
            })?,
        }
        Ok(())
    }
}
