//! The top call: what the program does with its words, its logs and its output.
ghost use Rattle.std.specs.Prelude.{◌≡◌, ◌≢◌, ℕ, ◌≤◌, List, length, map, string_bytes};
ghost use Rattle.rma_command.specs.Asked.{audit_of, explain_of, strict_of};
ghost use Rattle.rma_command.specs.Words.{IsAudit, IsExplain, IsStrict, IsTrial};
ghost use Rattle.rma_gen.specs.Trial.{CanRun};
ghost use Rattle.rma_io.specs.Source.{Source, Opened};
ghost use Rattle.rma_audit.specs.Answers.{IsFresh, Says, WritesNothing};
ghost use Rattle.rma_audit.specs.inside.Runs.{run_of, status_of};

use crate::judging::{judge_explained, judge_logs, judge_strictly, judge_trial};
use crate::reporting::{write_count, write_explained, write_limited, write_report};
use crate::status::Status;
use crate::stop::Stop;
use rma_base::Memory;
use rma_base::limits::RANKS;
use rma_command::{Audit, Command, Explain, Strict};
use rma_gen::Trial;
use rma_io::{Logs, Sink};
use std::alloc::Global;

/// Does what the words of the command line say: opens the logs that they name, in order, one log a rank; reads them
/// to their ends; audits them; and writes the report to `out`, as text or as JSON.
///
/// An audit finds the first bad line of each log; where there is none, the calls that those of other ranks do not match; else the calls
/// that are never left; else the first epoch fault of each rank, with the races, the locks of exposed parts and the doubled posts of the
/// calls before these faults. As many findings are shown as the words say.
///
/// A strict audit finds what an audit does; where that finds nothing, the assertions that do not hold; and where all of these hold, the
/// faults of the memory of dynamic windows. As many findings are shown as the words say, as text.
///
/// An explanation is of one of the findings of an audit, whose number the words give. It shows this one, where there are so many, with
/// the two least cuts that show it where it is a race, and how many findings there are. Its answer is that of the audit.
///
/// A trial audits logs that are made for it, and opens none. None of its findings is shown, only how many there are.
///
/// All memory is taken before the first byte is written.
pub fn run<L: Logs, S: Sink>(alloc: Global, words: &[String], logs: &mut L, out: &mut S) -> Status
    requires fresh { IsFresh (L.source logs.old) (L.opened logs.old) }

    // When each answer comes, and what was read and written then.
    ensures answer { Says result (record {
      words = map string_bytes words.now;
      source_before = L.source logs.old;
      source = L.source logs.new;
      opened = L.opened logs.new;
      output_before = S.output out.old;
      output = S.output out.new;
    }) }
    ensures usage { result ≡ Status.Usage → logs.new ≡ logs.old }
    ensures trial { (trial : Trial) → IsTrial (map string_bytes words.now) trial → logs.new ≡ logs.old }
    ensures nothing_written { WritesNothing result → out.new ≡ out.old }
{
    match Command::of_words(words) {
        None => Status::Usage,
        Some(Command::Audit(audit)) => run_audit(alloc, audit, logs, out),
        Some(Command::Strict(strict)) => run_strict(alloc, strict, logs, out),
        Some(Command::Explain(explain)) => run_explain(alloc, explain, logs, out),
        Some(Command::Trial(trial)) => run_trial(alloc, trial, out),
    }
}

/// Audits the logs that the words name, and writes the report.
fn run_audit<L: Logs, S: Sink>(alloc: Global, audit: Audit<'_>, logs: &mut L, out: &mut S) -> Status
    requires fresh { IsFresh (L.source logs.old) (L.opened logs.old) }
    requires few { length audit.names.now ≤ RANKS }
    ensures answer { (words : List (List ℕ)) → IsAudit words (audit_of audit.entry) →
        Says result (run_of words (L.source logs.old) (L.source logs.new) (L.opened logs.new) (S.output out.old) (S.output out.new)) }
    ensures not_usage { result ≢ Status.Usage }
    ensures nothing_written { WritesNothing result → out.new ≡ out.old }
{
    match judge_logs(alloc, audit.names, logs) {
        Ok(findings) => write_report(alloc, audit, &findings, out),
        Err(stop) => status_of(stop),
    }
}

/// Audits the logs that the words name strictly, and writes the report.
fn run_strict<L: Logs, S: Sink>(
    alloc: Global,
    strict: Strict<'_>,
    logs: &mut L,
    out: &mut S,
) -> Status
    requires fresh { IsFresh (L.source logs.old) (L.opened logs.old) }
    requires few { length strict.names.now ≤ RANKS }
    ensures answer { (words : List (List ℕ)) → IsStrict words (strict_of strict.entry) →
        Says result (run_of words (L.source logs.old) (L.source logs.new) (L.opened logs.new) (S.output out.old) (S.output out.new)) }
    ensures not_usage { result ≢ Status.Usage }
    ensures nothing_written { WritesNothing result → out.new ≡ out.old }
{
    match judge_strictly(alloc, strict.names, logs) {
        Ok(findings) => write_limited(strict.limit, &findings, out),
        Err(stop) => status_of(stop),
    }
}

/// Audits the logs that the words name, and writes what explains one of the findings.
fn run_explain<L: Logs, S: Sink>(
    alloc: Global,
    explain: Explain<'_>,
    logs: &mut L,
    out: &mut S,
) -> Status
    requires fresh { IsFresh (L.source logs.old) (L.opened logs.old) }
    requires few { length explain.names.now ≤ RANKS }
    requires from_one { 1 ≤ explain.number }
    ensures answer { (words : List (List ℕ)) → IsExplain words (explain_of explain.entry) →
        Says result (run_of words (L.source logs.old) (L.source logs.new) (L.opened logs.new) (S.output out.old) (S.output out.new)) }
    ensures not_usage { result ≢ Status.Usage }
    ensures nothing_written { WritesNothing result → out.new ≡ out.old }
{
    match judge_explained(alloc, explain.names, explain.number, logs) {
        Ok(explained) => write_explained(&explained, explain.number, out),
        Err(stop) => status_of(stop),
    }
}

/// Audits the logs of a trial, and writes how many findings there are.
fn run_trial<S: Sink>(alloc: Global, trial: Trial, out: &mut S) -> Status
    requires can_run { CanRun trial }
    ensures answer { (words : List (List ℕ)) (before after : Source) (opened : Opened) → IsTrial words trial →
        Says result (run_of words before after opened (S.output out.old) (S.output out.new)) }
    ensures not_usage { result ≢ Status.Usage }
    ensures nothing_written { WritesNothing result → out.new ≡ out.old }
{
    match judge_trial(alloc, trial) {
        Ok(findings) => write_count(&findings, out),
        Err(Memory) => Status::Memory,
    }
}

/// The status of a run whose reading stopped.
fn status_of(stop: Stop) -> Status
    ensures { result ≡ status_of stop }
{
    match stop {
        Stop::Fault => Status::ReadFault { recorded: 0 },
        Stop::TooLarge { bytes } => Status::TooLarge { bytes },
        Stop::Memory => Status::Memory,
    }
}
