//! What sets of bytes are and share.
use crate::integers::signed;
use crate::runs::{BOUND, run_in, set_in, text_of};
use crate::words::word_and_rest;
use rma_bytes::{Run, Runs};
use rma_table::Failure;
use std::alloc::Global;

/// Prints what each line of a row asks of sets of bytes.
///
/// # Errors
///
/// `Row` where a line asks nothing, and `Memory` where there is none left.
pub fn answer(rt: HostRuntime, lines: &[String]) -> Result<(), Failure> {
    for line in lines {
        answer_line(rt, line)?;
    }
    Ok(())
}

/// Prints what a line asks.
fn answer_line(rt: HostRuntime, line: &str) -> Result<(), Failure> {
    let (verb, words) = word_and_rest(line);
    match verb {
        "union" => print_union(rt, words),
        "common" => print_common(rt, words),
        "held" => print_held(rt, words),
        "shift" => print_shift(rt, words),
        _ => Err(Failure::Row),
    }
}

/// Prints the runs of the set of blocks.
fn print_union(rt: HostRuntime, words: &str) -> Result<(), Failure> {
    let runs = set_in(rt.alloc(), words)?;
    print_set(rt, &runs)
}

/// Prints the runs of a set.
fn print_set(rt: HostRuntime, runs: &Runs) -> Result<(), Failure> {
    let text = text_of(rt.alloc(), runs)?;
    Ok(println!(rt; "= {text}")?)
}

/// Prints what two sets share, between whose blocks a slash stands.
fn print_common(rt: HostRuntime, words: &str) -> Result<(), Failure> {
    let Some((mine, theirs)) = words.split_once('/') else {
        return Err(Failure::Row);
    };
    let one = set_in(rt.alloc(), mine)?;
    print_shared_with(rt, &one, theirs)
}

/// Prints what a set shares with that of other blocks.
fn print_shared_with(rt: HostRuntime, one: &Runs, words: &str) -> Result<(), Failure> {
    let two = set_in(rt.alloc(), words)?;
    print_shared(rt, one, &two)
}

/// Prints what two sets share, which is the same the other way round.
fn print_shared(rt: HostRuntime, one: &Runs, two: &Runs) -> Result<(), Failure> {
    let text = shared_text(rt.alloc(), one, two)?;
    println!(rt; "= {text}")?;
    if shared_text(rt.alloc(), two, one)? != text {
        println!(rt; "= not the same the other way round")?;
    }
    Ok(())
}

/// The runs that a set shares with another, which are some exactly where it says that the two meet.
fn shared_text(alloc: Global, one: &Runs, two: &Runs) -> Result<String, Failure> {
    let both = one.common(two)?;
    let mut text = text_of(alloc, &both)?;
    if both.is_empty() == one.meets(two) {
        text.push_str(" and meets says otherwise")?;
    }
    Ok(text)
}

/// Prints what a run is to the set of the blocks behind `against`.
fn print_held(rt: HostRuntime, words: &str) -> Result<(), Failure> {
    let Some((run, blocks)) = words.split_once(" against ") else {
        return Err(Failure::Row);
    };
    let run = run_in(run)?;
    let runs = set_in(rt.alloc(), blocks)?;
    Ok(println!(rt; "= {}", held_word(&runs, run))?)
}

/// The word for what a run is to a set: whether it shares a byte with it, and whether the set lies inside it.
fn held_word(runs: &Runs, run: Run) -> &'static str {
    match (runs.meets_run(run), runs.inside(run)) {
        (true, true) => "meets inside",
        (true, false) => "meets",
        (false, true) => "inside",
        (false, false) => "apart",
    }
}

/// Prints the runs of a set that is moved by a distance, and those of a copy that was made before.
fn print_shift(rt: HostRuntime, words: &str) -> Result<(), Failure> {
    let (by, blocks) = word_and_rest(words);
    let mut runs = set_in(rt.alloc(), blocks)?;
    let copy = runs.copy()?;
    shift(&mut runs, signed(by)?)?;
    print_set(rt, &runs)?;
    print_set(rt, &copy)
}

/// Moves a set, where that leaves it within the bounds.
fn shift(runs: &mut Runs, by: i64) -> Result<(), Failure> {
    if by < -2 * BOUND || by > 2 * BOUND {
        return Err(Failure::Row);
    }
    let room = Run {
        start: -BOUND - by,
        len: 2 * BOUND as u64,
    };
    if !runs.inside(room) {
        return Err(Failure::Row);
    }
    runs.shift(by);
    Ok(())
}
