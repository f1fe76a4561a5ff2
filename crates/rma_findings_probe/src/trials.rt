//! What is asked of trials.
ghost use Rattle.std.specs.Prelude.{IfOk};
ghost use Rattle.rma_gen.specs.Trial.{CanRun};

use crate::audits::findings_of;
use crate::pulls::texts_of;
use crate::run::{self, Question};
use rma_gen::Trial;
use rma_table::{Failure, number};

/// The most ranks of a trial.
const RANKS: u32 = 64;

/// The most rounds of all ranks together.
const ROUNDS: u64 = 1_000_000;

/// Prints what each line of a row asks of a trial.
///
/// # Errors
///
/// `Row` where a line asks for no trial, and `Memory` where there is none left.
pub fn answer(rt: HostRuntime, lines: &[String]) -> Result<(), Failure> {
    for line in lines {
        answer_line(rt, line)?;
    }
    Ok(())
}

/// Prints what a line asks of a trial.
fn answer_line(rt: HostRuntime, line: &str) -> Result<(), Failure> {
    let Some((asked, numbers)) = line.split_once(' ') else {
        return Err(Failure::Row);
    };
    let trial = trial_of(numbers)?;
    match asked {
        "trial_races" => print_of_run(rt, Question::Counted, trial),
        "trial_cuts" => print_of_run(rt, Question::Shown, trial),
        "trial_audit" => print_audit(rt, trial),
        _ => Err(Failure::Row),
    }
}

/// The trial of three numbers: how many ranks, how many rounds, and the seed.
fn trial_of(numbers: &str) -> Result<Trial, Failure>
    ensures { IfOk result CanRun }
{
    let Some((ranks, rest)) = numbers.split_once(' ') else {
        return Err(Failure::Row);
    };
    let Some((rounds, seed)) = rest.split_once(' ') else {
        return Err(Failure::Row);
    };
    checked(Trial {
        ranks: number(ranks)?,
        rounds: number(rounds)?,
        seed: number(seed)?,
    })
}

/// A trial that can run.
fn checked(trial: Trial) -> Result<Trial, Failure>
    ensures { IfOk result CanRun }
{
    let all_rounds = u64::from(trial.ranks) * u64::from(trial.rounds);
    if trial.ranks < 2 || trial.ranks > RANKS || trial.rounds < 1 || all_rounds > ROUNDS {
        return Err(Failure::Row);
    }
    Ok(trial)
}

/// Prints what is asked of the run of a trial.
fn print_of_run(rt: HostRuntime, question: Question<'_>, trial: Trial) -> Result<(), Failure>
    requires { CanRun trial }
{
    let texts = texts_of(rt.alloc(), trial)?;
    run::answer(rt, question, &texts)
}

/// Prints how many lines the logs of a trial have, and how many findings an audit of them has.
fn print_audit(rt: HostRuntime, trial: Trial) -> Result<(), Failure>
    requires { CanRun trial }
{
    let findings = findings_of(rt.alloc(), trial)?;
    println!(rt; "= {} lines", findings.lines)?;
    if findings.list.is_empty() {
        println!(rt; "= clean")?;
    } else {
        println!(rt; "= {} findings", findings.list.len())?;
    }
    Ok(())
}
