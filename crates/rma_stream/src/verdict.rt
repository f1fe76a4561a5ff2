//! What is found in a run, as it is asked.
ghost use Rattle.std.specs.Prelude.{List, IfOk};
ghost use Rattle.rma_accesses.specs.Run.{AreEpochsOf, AreGood};
ghost use Rattle.rma_accesses.specs.inside.Kept.{AreAccessesOf};
ghost use Rattle.rma_happens_before.specs.RunOrder.{IsHappensBefore};
ghost use Rattle.rma_log.specs.declared.fault.BookEnd.{BookEnd};
ghost use Rattle.rma_match.specs.Matches.{AreMatches};
ghost use Rattle.rma_stream.specs.Findings.{AreFaults, AreFindingsOf, AreRunFindings, calls_in};
ghost use Rattle.rma_stream.specs.inside.Run.{IsMatched, IsRunOf, IsSound};
ghost use Rattle.rma_stream.specs.inside.Verdict.{IsQuestion, IsVerdict};

use crate::explain::cuts_at;
use crate::faults::fault_findings;
use crate::question::{Question, Verdict};
use crate::run::{MatchedRun, Run};
use crate::strict::strict_findings;
use crate::study::Study;
use rma_accesses::{RunAccesses, RunEpochs};
use rma_base::Memory;
use rma_call::RankCalls;
use rma_clock::{Clocks, SharedClocks};
use rma_happens_before::HappensBefore;
use rma_match::Matches;
use rma_report::FindingList;
use std::alloc::Global;

impl Run {
    /// What is found in the run, as it is asked.
    ///
    /// # Errors
    ///
    /// `Memory` where there is none left.
    pub(crate) fn verdict(self, alloc: Global, question: Question) -> Result<Verdict, Memory>
        requires matched { IsMatched self }
        requires question { IsQuestion question }
        ensures { IfOk result (λ verdict. (ends : List BookEnd) → IsRunOf ends self → IsVerdict question (AreFindingsOf ends) (calls_in ends) verdict) }
    {
        match self {
            Run::Judged { bad } => Ok(Verdict {
                found: bad,
                cuts: None,
            }),
            Run::Matched(run) => run.verdict(alloc, question),
        }
    }
}

impl MatchedRun {
    /// The same of the run of logs without a bad line.
    fn verdict(&self, alloc: Global, question: Question) -> Result<Verdict, Memory>
        requires sound { IsSound self.now }
        requires question { IsQuestion question }
        ensures { IfOk result (IsVerdict question (AreRunFindings self.now.calls.items) self.now.calls.items) }
    {
        matched_verdict(alloc, question, &self.calls, &self.matches)
    }
}

/// What is found in a run of good logs with these matches.
fn matched_verdict(
    alloc: Global,
    question: Question,
    calls: &[RankCalls],
    matches: &Matches,
) -> Result<Verdict, Memory>
    requires question { IsQuestion question }
    requires good { AreGood calls.now }
    requires matches { AreMatches calls.now matches.now }
    ensures { IfOk result (IsVerdict question (AreRunFindings calls.now) calls.now) }
{
    match Study::of(alloc, calls, matches)? {
        Study::Failed { found } => Ok(Verdict { found, cuts: None }),
        Study::Possible(order) => possible_verdict(alloc, question, calls, matches, &order),
    }
}

/// What is found in a possible run of this order.
fn possible_verdict(
    alloc: Global,
    question: Question,
    calls: &[RankCalls],
    matches: &Matches,
    order: &HappensBefore,
) -> Result<Verdict, Memory>
    requires question { IsQuestion question }
    requires good { AreGood calls.now }
    requires matches { AreMatches calls.now matches.now }
    requires order { IsHappensBefore ⟦<SharedClocks as Clocks>⟧.are_of calls.now order.now }
    ensures { IfOk result (IsVerdict question (AreFaults calls.now) calls.now) }
{
    let epochs = RunEpochs::of(alloc, calls)?;
    placed_verdict(alloc, question, calls, matches, &epochs, order)
}

/// What is found in one with these epochs.
fn placed_verdict(
    alloc: Global,
    question: Question,
    calls: &[RankCalls],
    matches: &Matches,
    epochs: &RunEpochs<'_>,
    order: &HappensBefore,
) -> Result<Verdict, Memory>
    requires question { IsQuestion question }
    requires good { AreGood calls.now }
    requires matches { AreMatches calls.now matches.now }
    requires epochs { AreEpochsOf calls.now epochs.now }
    requires order { IsHappensBefore ⟦<SharedClocks as Clocks>⟧.are_of calls.now order.now }
    ensures { IfOk result (IsVerdict question (AreFaults calls.now) calls.now) }
{
    let accesses = RunAccesses::of(alloc, calls, matches, epochs)?;
    let found = fault_findings(alloc, epochs, &accesses, order)?;
    verdict_on(
        alloc, question, found, calls, matches, epochs, &accesses, order,
    )
}

/// What is found in one with these accesses, where this is found of epochs and of pairs.
fn verdict_on(
    alloc: Global,
    question: Question,
    found: FindingList,
    calls: &[RankCalls],
    matches: &Matches,
    epochs: &RunEpochs<'_>,
    accesses: &RunAccesses<'_, '_>,
    order: &HappensBefore,
) -> Result<Verdict, Memory>
    requires question { IsQuestion question }
    requires found { AreFaults calls.now found }
    requires good { AreGood calls.now }
    requires matches { AreMatches calls.now matches.now }
    requires epochs { AreEpochsOf calls.now epochs.now }
    requires accesses { AreAccessesOf calls.now accesses.now }
    requires order { IsHappensBefore ⟦<SharedClocks as Clocks>⟧.are_of calls.now order.now }
    ensures { IfOk result (IsVerdict question (AreFaults calls.now) calls.now) }
{
    let windows = &epochs.windows;
    match question {
        Question::Strict if found.is_empty() => {
            let found = strict_findings(alloc, calls, matches, windows, accesses, order)?;
            Ok(Verdict { found, cuts: None })
        }
        Question::Explain { number } => {
            let shown = found.as_slice();
            let cuts = cuts_at(alloc, shown, number, calls, windows, accesses, order)?;
            Ok(Verdict { found, cuts })
        }
        Question::Audit | Question::Strict => Ok(Verdict { found, cuts: None }),
    }
}
