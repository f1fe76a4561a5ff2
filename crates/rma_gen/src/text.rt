//! The lines of the logs of a trial.
ghost use Rattle.std.specs.Prelude.{◌≡◌, ◌<◌};
ghost use Rattle.rma_gen.specs.Trial.{CanRun, displacement, first_lines, last_lines, loaded, origin, round_lines, target};
ghost use Rattle.rma_gen.specs.inside.Parts.{part_text};

use crate::trial::Trial;
use arrayvec::ArrayString;
use itoa::Buffer;

/// The lines of one part.
pub(crate) type Text = ArrayString<128>;

/// The lines of a part of the log of this rank: those before the rounds, of a round each, and those behind them.
pub(crate) fn part_text(trial: Trial, rank: u32, part: u32) -> Text
    requires can_run { CanRun trial }
    requires rank { rank < trial.ranks }
    ensures { result.bytes ≡ part_text trial rank part }
{
    match part.checked_sub(1) {
        None => first_lines(trial, rank),
        Some(round) if round < trial.rounds => round_lines(trial, rank, round),
        Some(_) => last_lines(),
    }
}

/// The lines before the rounds.
fn first_lines(trial: Trial, rank: u32) -> Text
    ensures { result.bytes ≡ first_lines trial rank }
{
    let mut digits = Buffer::new();
    let mut text = Text::new();
    text.push_str("rma 1 ");
    text.push_str(digits.format(rank));
    text.push_str(" ");
    text.push_str(digits.format(trial.ranks));
    text.push_str("\n");
    text.push_str("win create W world 4096 4096 4 unified same_op_no_op\n");
    text.push_str("fence W noprecede\n");
    text
}

/// The lines of a round.
fn round_lines(trial: Trial, rank: u32, round: u32) -> Text
    requires can_run { CanRun trial }
    requires rank { rank < trial.ranks }
    ensures { result.bytes ≡ round_lines trial rank round }
{
    let mut digits = Buffer::new();
    let mut text = Text::new();
    text.push_str("put W ");
    text.push_str(digits.format(target(trial, rank)));
    text.push_str(" ");
    text.push_str(digits.format(displacement(trial, round)));
    text.push_str(" 1 INT ");
    text.push_str(digits.format(origin(round)));
    text.push_str(" 1 INT\n");
    text.push_str("load ");
    text.push_str(digits.format(loaded(trial, rank, round)));
    text.push_str(" 1 INT\n");
    text.push_str("fence W\n");
    text
}

/// The lines behind the rounds.
fn last_lines() -> Text
    ensures { result.bytes ≡ last_lines }
{
    let mut text = Text::new();
    text.push_str("win free W\n");
    text.push_str("end\n");
    text
}

/// The rank that this one puts to.
fn target(trial: Trial, rank: u32) -> u32
    requires { rank < trial.ranks }
    ensures { result ≡ target trial rank }
{
    (rank + 1) % trial.ranks
}

/// Which element of the target's window is put to in a round.
fn displacement(trial: Trial, round: u32) -> u32
    ensures { result ≡ displacement trial round }
{
    ((u64::from(trial.seed) + u64::from(round)) % 1024) as u32
}

/// Where the element stands that is put in a round.
fn origin(round: u32) -> u32
    ensures { result ≡ origin round }
{
    16_384 + 4 * (round % 1024)
}

/// Where the element stands that this rank loads in a round.
fn loaded(trial: Trial, rank: u32, round: u32) -> u32
    ensures { result ≡ loaded trial rank round }
{
    let put_to = displacement(trial, round);
    if (u64::from(trial.seed) + u64::from(round)) % 100 == u64::from(rank) {
        4096 + 4 * put_to
    } else {
        4096 + 4 * ((put_to + 1) % 1024)
    }
}
