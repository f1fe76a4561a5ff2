//! The races of the runs that logs record.
ghost use Rattle.std.specs.Prelude.{◌≡◌};
ghost use Rattle.rma_match.specs.Matches.{AreMatches};
ghost use Rattle.rma_window.specs.Creation.{creations};
ghost use Rattle.rma_window.specs.Windows.{windows_by};
ghost use Rattle.rma_accesses.specs.Run.{AreEpochsOf, AreGood};
ghost use Rattle.rma_accesses.specs.inside.Kept.{AreAccessesOf};
ghost use Rattle.rma_findings_probe.specs.Scene.{IsScene};

use crate::cuts::print_cuts;
use crate::races::{print_all, print_counted};
use crate::scene::{Scene, races_in};
use crate::shown::print_shown;
use rma_accesses::{RunAccesses, RunEpochs};
use rma_call::RankCalls;
use rma_clock::{Clocks, SharedClocks};
use rma_happens_before::{RunOrder, order_of};
use rma_match::Matches;
use rma_rows::{Logs, print_fault, read};
use rma_table::Failure;
use rma_window::Windows;

/// What is asked of a run.
#[derive(Clone, Copy)]
pub enum Question<'q> {
    /// Its races.
    Races,
    /// How many races it has, and the first one.
    Counted,
    /// The least cuts that show each of its races, and whether each two of these cuts do.
    Cuts(&'q [String]),
    /// How many races it has, and how many are shown by the least cuts.
    Shown,
}

/// Prints what is asked of the run of some logs, or the first bad line of one.
///
/// # Errors
///
/// `Row` where a log is longer than one may be, or the question names no cuts, and `Memory` where there is none left.
pub fn answer(rt: HostRuntime, question: Question<'_>, logs: &[String]) -> Result<(), Failure> {
    match read(rt.alloc(), logs)? {
        Logs::Calls(calls) => answer_calls(rt, question, &calls),
        Logs::Fault(rank, fault) => Ok(print_fault(rt, rank, fault)?),
    }
}

/// The same of a run of good logs.
fn answer_calls(rt: HostRuntime, question: Question<'_>, calls: &[RankCalls]) -> Result<(), Failure>
    requires { AreGood calls.now }
{
    let matches = Matches::of_calls(rt.alloc(), calls)?;
    answer_matched(rt, question, calls, &matches)
}

/// The same of one with these matches.
fn answer_matched(
    rt: HostRuntime,
    question: Question<'_>,
    calls: &[RankCalls],
    matches: &Matches,
) -> Result<(), Failure>
    requires good { AreGood calls.now }
    requires matches { AreMatches calls.now matches.now }
{
    let epochs = RunEpochs::of(rt.alloc(), calls)?;
    answer_placed(rt, question, calls, matches, &epochs)
}

/// The same of one with these epochs.
fn answer_placed(
    rt: HostRuntime,
    question: Question<'_>,
    calls: &[RankCalls],
    matches: &Matches,
    epochs: &RunEpochs<'_>,
) -> Result<(), Failure>
    requires good { AreGood calls.now }
    requires matches { AreMatches calls.now matches.now }
    requires epochs { AreEpochsOf calls.now epochs.now }
{
    let accesses = RunAccesses::of(rt.alloc(), calls, matches, epochs)?;
    answer_accessed(rt, question, calls, matches, &epochs.windows, &accesses)
}

/// The same of one with these windows and accesses.
fn answer_accessed(
    rt: HostRuntime,
    question: Question<'_>,
    calls: &[RankCalls],
    matches: &Matches,
    windows: &Windows,
    accesses: &RunAccesses<'_, '_>,
) -> Result<(), Failure>
    requires good { AreGood calls.now }
    requires matches { AreMatches calls.now matches.now }
    requires windows { windows.now ≡ windows_by (creations calls.now) }
    requires accesses { AreAccessesOf calls.now accesses.now }
{
    match order_of(rt.alloc(), calls, matches)? {
        RunOrder::Possible(order) => answer_scene(
            rt,
            question,
            Scene {
                calls,
                accesses,
                windows,
                order: &order,
            },
        ),
        RunOrder::Impossible(_) => Ok(println!(rt; "= impossible")?),
    }
}

/// The same of a possible one.
fn answer_scene(
    rt: HostRuntime,
    question: Question<'_>,
    scene: Scene<'_, '_, '_>,
) -> Result<(), Failure>
    requires { IsScene ⟦<SharedClocks as Clocks>⟧.are_of scene }
{
    let races = races_in(rt.alloc(), scene)?;
    match question {
        Question::Races => Ok(print_all(rt, &races)?),
        Question::Counted => Ok(print_counted(rt, &races)?),
        Question::Cuts(given) => print_cuts(rt, scene, &races, given),
        Question::Shown => print_shown(rt, scene, &races),
    }
}
