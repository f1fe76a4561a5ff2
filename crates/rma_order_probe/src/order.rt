//! The links of a run, and the order of its points.
ghost use Rattle.std.specs.Prelude.{◌≡◌};
ghost use Rattle.rma_match.specs.Matches.{AreMatches};
ghost use Rattle.rma_accesses.specs.Run.{AreGood};
ghost use Rattle.rma_happens_before.specs.RunOrder.{IsHappensBefore};
ghost use Rattle.rma_order_probe.specs.Linked.{IsLinkedRun, IsOrderedRun};

use crate::asked::first_of;
use crate::clocks::{check_points, compare_clocks, print_leq};
use crate::linked::{LinkedRun, OrderedRun};
use crate::links::{are_the_same, print_links};
use crate::{live_clocks, matched};
use rma_call::RankCalls;
use rma_clock::{Clocks, SharedClocks};
use rma_happens_before::{HappensBefore, RunOrder, order_of};
use rma_match::Matches;
use rma_order::{ImpossibleCall, call_counts, impossible_calls, run_links};
use rma_table::Failure;

/// Prints the links of a run, how many points it has or which calls are never left, and the answers to what is asked.
///
/// # Errors
///
/// `Row` where a question is none that may be asked of this run, and `Memory` where there is none left.
pub fn answer(rt: HostRuntime, calls: &[RankCalls], asked: &[String]) -> Result<(), Failure>
    requires { AreGood calls.now }
{
    let matches = Matches::of_calls(rt.alloc(), calls)?;
    answer_matched(rt, calls, &matches, asked)
}

/// Prints the same of a run with these matches.
fn answer_matched(
    rt: HostRuntime,
    calls: &[RankCalls],
    matches: &Matches,
    asked: &[String],
) -> Result<(), Failure>
    requires good { AreGood calls.now }
    requires matches { AreMatches calls.now matches.now }
{
    let links = run_links(rt.alloc(), calls, matches)?;
    print_links(rt, &links)?;
    let run = LinkedRun {
        calls,
        matches,
        links: &links,
    };
    answer_linked(rt, run, asked)
}

/// Prints how many points a run has, or which calls are never left, and the answers.
fn answer_linked(rt: HostRuntime, run: LinkedRun<'_>, asked: &[String]) -> Result<(), Failure>
    requires { IsLinkedRun run }
{
    match order_of(rt.alloc(), run.calls, run.matches)? {
        RunOrder::Possible(order) => answer_possible(rt, run, &order, asked),
        RunOrder::Impossible(calls) => answer_impossible(rt, run, calls.as_slice(), asked),
    }
}

/// Prints which calls are never left, and the answers.
fn answer_impossible(
    rt: HostRuntime,
    run: LinkedRun<'_>,
    calls: &[ImpossibleCall],
    asked: &[String],
) -> Result<(), Failure>
    requires { IsLinkedRun run }
{
    for call in calls {
        println!(rt; "= impossible rank {} line {}", call.rank.0, call.line.0)?;
    }
    compare_impossible(rt, run, calls)?;
    answer_questions(rt, run, asked)
}

/// Prints the answers to what is asked of the matches and the links of a run.
fn answer_questions(rt: HostRuntime, run: LinkedRun<'_>, asked: &[String]) -> Result<(), Failure>
    requires { IsLinkedRun run }
{
    for words in asked {
        matched::answer(rt, run, words)?;
    }
    Ok(())
}

/// Prints how many points a possible run has, and the answers.
fn answer_possible(
    rt: HostRuntime,
    run: LinkedRun<'_>,
    order: &HappensBefore,
    asked: &[String],
) -> Result<(), Failure>
    requires run { IsLinkedRun run }
    requires order { IsHappensBefore ⟦<SharedClocks as Clocks>⟧.are_of run.calls.now order.now }
{
    println!(rt; "= {} points", order.points.len())?;
    if !are_the_same(run.links, &order.links) {
        println!(rt; "= the links of the order differ")?;
    }
    compare_impossible(rt, run, &[])?;
    let lens = call_counts(rt.alloc(), run.calls)?;
    let ordered = OrderedRun {
        linked: run,
        order,
        lens: &lens,
    };
    answer_ordered(rt, ordered, asked)
}

/// Prints the answers to what is asked of a possible run.
fn answer_ordered(rt: HostRuntime, run: OrderedRun<'_, '_>, asked: &[String]) -> Result<(), Failure>
    requires { IsOrderedRun ⟦<SharedClocks as Clocks>⟧.are_of run }
{
    check_points(rt, run)?;
    compare_clocks(rt, run)?;
    for words in asked {
        answer_question(rt, run, words)?;
    }
    Ok(())
}

/// Prints the answer to a question.
fn answer_question(rt: HostRuntime, run: OrderedRun<'_, '_>, words: &str) -> Result<(), Failure>
    requires { IsOrderedRun ⟦<SharedClocks as Clocks>⟧.are_of run }
{
    let (first, rest) = first_of(words);
    match first {
        "leq" => print_leq(rt, run, rest),
        "settle" => live_clocks::answer(rt, run, rest),
        _ => matched::answer(rt, run.linked, words),
    }
}

/// Prints that the calls which are never left differ from these, where that is so.
fn compare_impossible(
    rt: HostRuntime,
    run: LinkedRun<'_>,
    calls: &[ImpossibleCall],
) -> Result<(), Failure>
    requires { IsLinkedRun run }
{
    let found = impossible_calls(rt.alloc(), run.calls, run.matches)?;
    if found.as_slice() != calls {
        println!(rt; "= the impossible calls differ")?;
    }
    Ok(())
}
