//! What is asked of calls that come one by one.
use crate::asked::{CallName, call_in, first_of};
use crate::taken::taken;
use crate::text::{print_number, print_points};
use rma_base::Rank;
use rma_call::RankCalls;
use rma_match::LiveMatch;
use rma_table::{Failure, number};

/// Prints the answers to what is asked of a run: `QUESTION after RANK..` is asked where the next calls of these ranks are taken, in this
/// order.
///
/// # Errors
///
/// `Row` where it is no question, and `Memory` where there is none left.
pub fn answer(rt: HostRuntime, calls: &[RankCalls], asked: &[String]) -> Result<(), Failure> {
    for words in asked {
        answer_question(rt, calls, words)?;
    }
    Ok(())
}

/// Prints the answer to a question.
fn answer_question(rt: HostRuntime, calls: &[RankCalls], words: &str) -> Result<(), Failure> {
    let Some((question, ranks)) = words.split_once(" after ") else {
        return Err(Failure::Row);
    };
    let live = taken(rt.alloc(), calls, ranks)?;
    answer_taken(rt, calls, &live, question)
}

/// Prints the answer to a question where these calls are taken: `waits CALL` what the return of a call waits for, `partner CALL RANK` the
/// call of a rank that matches another call, and `expwait CALL` the expwait that closes a post.
fn answer_taken(
    rt: HostRuntime,
    calls: &[RankCalls],
    live: &LiveMatch,
    question: &str,
) -> Result<(), Failure> {
    let (first, rest) = first_of(question);
    match first {
        "waits" => print_waits(rt, calls, live, call_in(rest)?),
        "partner" => print_partner(rt, calls, live, rest),
        "expwait" => print_expwait(rt, live, call_in(rest)?),
        _ => Err(Failure::Row),
    }
}

/// Prints the points that the return of a call waits for, or that not all of them are taken.
fn print_waits(
    rt: HostRuntime,
    calls: &[RankCalls],
    live: &LiveMatch,
    name: CallName,
) -> Result<(), Failure> {
    let Some(call) = name.find(calls) else {
        return Err(Failure::Row);
    };
    match live.sources(rt.alloc(), name.rank, name.number, call)? {
        Some(points) => Ok(print_points(rt, points.as_slice())?),
        None => Ok(println!(rt; "= not all taken")?),
    }
}

/// Prints the call of a rank that matches another call.
fn print_partner(
    rt: HostRuntime,
    calls: &[RankCalls],
    live: &LiveMatch,
    words: &str,
) -> Result<(), Failure> {
    let (name, other) = first_of(words);
    let name = call_in(name)?;
    let other = Rank(number(other)?);
    match name.find(calls) {
        Some(call) => Ok(print_number(rt, live.partner(name.rank, name.number, call, other))?),
        None => Err(Failure::Row),
    }
}

/// Prints the expwait that closes a post.
fn print_expwait(rt: HostRuntime, live: &LiveMatch, post: CallName) -> Result<(), Failure> {
    Ok(print_number(rt, live.expwait_of(post.rank, post.number))?)
}
