//! The runs that logs record.
ghost use Rattle.std.specs.Prelude.{◌≡◌};
ghost use Rattle.rma_match.specs.Matches.{AreMatches};
ghost use Rattle.rma_accesses.specs.Run.{AreEpochsOf, AreGood};
ghost use Rattle.rma_accesses.specs.inside.Kept.{AreAccessesOf};

use crate::accesses::print_ranks;
use crate::count::count_accesses;
use crate::lists::print_lists;
use crate::table::print_matched;
use crate::words::Subject;
use rma_accesses::{RunAccesses, RunEpochs};
use rma_call::RankCalls;
use rma_match::Matches;
use rma_rows::{Logs, print_fault, read};
use rma_table::Failure;

/// Prints what is asked of some logs, or the first bad line of one.
pub fn answer(rt: HostRuntime, subject: Subject, logs: &[String]) -> Result<(), Failure> {
    match read(rt.alloc(), logs)? {
        Logs::Calls(calls) => answer_calls(rt, subject, &calls),
        Logs::Fault(rank, fault) => Ok(print_fault(rt, rank, fault)?),
    }
}

/// The same of a run of good logs.
fn answer_calls(rt: HostRuntime, subject: Subject, calls: &[RankCalls]) -> Result<(), Failure>
    requires { AreGood calls.now }
{
    let matches = Matches::of_calls(rt.alloc(), calls)?;
    answer_matched(rt, subject, calls, &matches)
}

/// The same of one with these matches.
fn answer_matched(
    rt: HostRuntime,
    subject: Subject,
    calls: &[RankCalls],
    matches: &Matches,
) -> Result<(), Failure>
    requires good { AreGood calls.now }
    requires matches { AreMatches calls.now matches.now }
{
    let epochs = RunEpochs::of(rt.alloc(), calls)?;
    answer_placed(rt, subject, calls, matches, &epochs)
}

/// The same of one with these epochs.
fn answer_placed(
    rt: HostRuntime,
    subject: Subject,
    calls: &[RankCalls],
    matches: &Matches,
    epochs: &RunEpochs<'_>,
) -> Result<(), Failure>
    requires good { AreGood calls.now }
    requires matches { AreMatches calls.now matches.now }
    requires epochs { AreEpochsOf calls.now epochs.now }
{
    let run = RunAccesses::of(rt.alloc(), calls, matches, epochs)?;
    match subject {
        Subject::Accesses => print_ranks(rt, &epochs.windows, &run),
        Subject::Lists => print_lists(rt, calls, &epochs.windows, &run.lists),
        Subject::Table => print_matched(rt, calls, matches, &epochs.windows, &run),
        Subject::Count => Ok(println!(rt; "= {} accesses", count_accesses(&run))?),
    }
}
