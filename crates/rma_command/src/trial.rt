//! The words of a trial.
ghost use Rattle.std.specs.Prelude.{◌≡◌, map, string_bytes};
ghost use Rattle.rma_command.specs.inside.Words.{can_run, trial_behind};

use crate::number::number_of;
use rma_gen::Trial;

/// The most ranks of a trial.
const RANKS: u32 = 64;

/// The most rounds of all ranks together.
const ROUNDS: u64 = 1_000_000;

/// The trial that the words behind the verb ask for.
pub(crate) fn trial_from(words: &[String]) -> Option<Trial>
    ensures { result ≡ trial_behind (map string_bytes words.now) }
{
    let [ranks, rounds, seed] = words else {
        return None;
    };
    let trial = Trial {
        ranks: number_of(ranks.as_str())?,
        rounds: number_of(rounds.as_str())?,
        seed: number_of(seed.as_str())?,
    };
    if can_run(trial) { Some(trial) } else { None }
}

/// Whether a trial may ask for this.
fn can_run(trial: Trial) -> bool
    ensures { result ≡ can_run trial }
{
    let all_rounds = u64::from(trial.ranks) * u64::from(trial.rounds);
    2 <= trial.ranks && trial.ranks <= RANKS && 1 <= trial.rounds && all_rounds <= ROUNDS
}
