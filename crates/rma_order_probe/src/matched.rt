//! What is asked of the matches of a run, and of its links.
ghost use Rattle.rma_order_probe.specs.Linked.{IsLinkedRun};

use crate::asked::{call_in, first_of};
use crate::inbox::print_waits;
use crate::linked::LinkedRun;
use crate::text::{print_number, print_whether};
use rma_base::Rank;
use rma_table::{Failure, number};

/// Prints the answer to a question: `partner CALL RANK` the call of a rank that matches another call, `complete CALL` the complete that
/// closes a start, `expwait CALL` the expwait that closes a post, `step` whether the ranks go in step, and `waits CALL` what the return
/// of a call waits for by the links.
///
/// # Errors
///
/// `Row` where it is none of these, and `Memory` where there is none left.
pub fn answer(rt: HostRuntime, run: LinkedRun<'_>, words: &str) -> Result<(), Failure>
    requires { IsLinkedRun run }
{
    let (first, rest) = first_of(words);
    match first {
        "partner" => print_partner(rt, run, rest),
        "complete" => print_complete(rt, run, rest),
        "expwait" => print_expwait(rt, run, rest),
        "step" => Ok(print_whether(rt, run.matches.rounds.are_in_step()?)?),
        "waits" => print_waits(rt, run, rest),
        _ => Err(Failure::Row),
    }
}

/// Prints the call of a rank that matches another call.
fn print_partner(rt: HostRuntime, run: LinkedRun<'_>, words: &str) -> Result<(), Failure> {
    let (name, other) = first_of(words);
    let name = call_in(name)?;
    let other = Rank(number(other)?);
    let Some(call) = name.find(run.calls) else {
        return Err(Failure::Row);
    };
    let rounds = &run.matches.rounds;
    let exposures = &run.matches.exposures;
    let of_round = rounds.partner(name.rank, name.number, call, other);
    let found = of_round.or(exposures.partner(name.rank, name.number, other));
    Ok(print_number(rt, found)?)
}

/// Prints the complete that closes a start.
fn print_complete(rt: HostRuntime, run: LinkedRun<'_>, word: &str) -> Result<(), Failure> {
    let start = call_in(word)?;
    let exposures = &run.matches.exposures;
    Ok(print_number(rt, exposures.complete_of(start.rank, start.number))?)
}

/// Prints the expwait that closes a post.
fn print_expwait(rt: HostRuntime, run: LinkedRun<'_>, word: &str) -> Result<(), Failure> {
    let post = call_in(word)?;
    let exposures = &run.matches.exposures;
    Ok(print_number(rt, exposures.expwait_of(post.rank, post.number))?)
}
