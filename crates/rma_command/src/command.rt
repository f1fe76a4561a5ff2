//! The words of the command line.
ghost use Rattle.std.specs.Prelude.{◌≡◌, MatchOption, option_map, map, string_bytes};
ghost use Rattle.rma_command.specs.Words.{AskFor, AreFaulty};
ghost use Rattle.rma_command.specs.Asked.{asked, audit_of, explain_of, strict_of};
ghost use Rattle.rma_command.specs.inside.Words.{audit_behind, command_of, explain_behind, strict_behind};

use crate::names::names_from;
use crate::number::ordinal_of;
use crate::options::{json_from, limit_from};
use crate::trial::trial_from;
use rma_gen::Trial;

/// An audit of logs.
#[derive(Clone, Copy)]
pub struct Audit<'a> {
    /// How many findings are shown at most, where the words say how many.
    pub limit: Option<u32>,
    /// Whether the report is JSON.
    pub json: bool,
    /// The names of the logs.
    pub names: &'a [String],
}

/// A strict audit of logs.
#[derive(Clone, Copy)]
pub struct Strict<'a> {
    /// How many findings are shown at most, where the words say how many.
    pub limit: Option<u32>,
    /// The names of the logs.
    pub names: &'a [String],
}

/// An audit of logs that explains one of its findings.
#[derive(Clone, Copy)]
pub struct Explain<'a> {
    /// The number of that finding, counted from 1.
    pub number: u32,
    /// The names of the logs.
    pub names: &'a [String],
}

/// What the words of the command line ask for.
#[derive(Clone, Copy)]
pub enum Command<'a> {
    /// The audit of logs.
    Audit(Audit<'a>),
    /// The strict audit of logs.
    Strict(Strict<'a>),
    /// The audit of logs that explains one of its findings.
    Explain(Explain<'a>),
    /// The audit of logs that the program makes itself.
    Trial(Trial),
}

impl<'a> Command<'a> {
    /// What the words ask for, or nothing where they are no command.
    pub fn of_words(words: &'a [String]) -> Option<Command<'a>>
        ensures { MatchOption result (AreFaulty (map string_bytes words.now))
            (λ command. AskFor (map string_bytes words.now) (asked command)) }
    {
        command_of(words)
    }
}

/// What the words ask for, read from left to right.
fn command_of(words: &[String]) -> Option<Command<'_>>
    ensures { option_map asked result ≡ command_of (map string_bytes words.now) }
{
    let (verb, words) = words.split_first()?;
    match verb.as_str() {
        "audit" => Some(Command::Audit(audit_from(words)?)),
        "strict" => Some(Command::Strict(strict_from(words)?)),
        "explain" => Some(Command::Explain(explain_from(words)?)),
        "trial" => Some(Command::Trial(trial_from(words)?)),
        _ => None,
    }
}

/// The audit that the words behind the verb ask for.
fn audit_from(words: &[String]) -> Option<Audit<'_>>
    ensures { option_map audit_of result ≡ audit_behind (map string_bytes words.now) }
{
    let (limit, words) = limit_from(words)?;
    let (json, words) = json_from(words);
    let (limit, words) = match limit {
        Some(_) => (limit, words),
        None => limit_from(words)?,
    };
    let names = names_from(words)?;
    Some(Audit { limit, json, names })
}

/// The strict audit that the words behind the verb ask for.
fn strict_from(words: &[String]) -> Option<Strict<'_>>
    ensures { option_map strict_of result ≡ strict_behind (map string_bytes words.now) }
{
    let (limit, words) = limit_from(words)?;
    let names = names_from(words)?;
    Some(Strict { limit, names })
}

/// The explanation that the words behind the verb ask for.
fn explain_from(words: &[String]) -> Option<Explain<'_>>
    ensures { option_map explain_of result ≡ explain_behind (map string_bytes words.now) }
{
    let (word, words) = words.split_first()?;
    let number = ordinal_of(word.as_str())?;
    let names = names_from(words)?;
    Some(Explain { number, names })
}
