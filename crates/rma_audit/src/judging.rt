//! The audits of the logs of a run, from where they come from to what was found in them.
ghost use Rattle.std.specs.Prelude.{◌≡◌, ◌≤◌, length, map, string_bytes, vec_len, IfOk, IfErr};
ghost use Rattle.rma_gen.specs.Trial.{CanRun};
ghost use Rattle.rma_audit.specs.Answers.{IsFresh};
ghost use Rattle.rma_audit.specs.inside.Runs.{HasJudged, HasRead, HasStopped, HasTried};
ghost use Rattle.rma_stream.specs.Explained.{AreExplained};
ghost use Rattle.rma_stream.specs.Findings.{AreFindings};
ghost use Rattle.rma_stream.specs.Strict.{AreStrictFindings};

use crate::opening::open_all;
use crate::reading::read_all;
use crate::stop::Stop;
use rma_base::Memory;
use rma_base::limits::RANKS;
use rma_gen::{Trial, TrialLogs};
use rma_io::Logs;
use rma_report::Findings;
use rma_stream::{Audit, Explained};
use std::alloc::Global;

/// How many bytes are read at once. What a book keeps has left the caches when its turn comes again, so turns are long.
const ROOM: usize = 65_536;

/// Opens the logs of these names, reads them to their ends, and answers what an audit finds in them.
pub(crate) fn judge_logs<L: Logs>(
    alloc: Global,
    names: &[String],
    logs: &mut L,
) -> Result<Findings, Stop>
    requires fresh { IsFresh (L.source logs.old) (L.opened logs.old) }
    requires few { length names.now ≤ RANKS }
    ensures judged { IfOk result (HasJudged AreFindings (map string_bytes names.now) (L.source logs.new) (L.opened logs.new)) }
    ensures stopped { IfErr result (λ stop. HasStopped stop (map string_bytes names.now) (L.source logs.old) (L.source logs.new) (L.opened logs.new)) }
{
    let audit = read_logs(alloc, names, logs)?;
    Ok(audit.finish()?)
}

/// Opens the logs of these names, reads them to their ends, and answers what a strict audit finds in them.
pub(crate) fn judge_strictly<L: Logs>(
    alloc: Global,
    names: &[String],
    logs: &mut L,
) -> Result<Findings, Stop>
    requires fresh { IsFresh (L.source logs.old) (L.opened logs.old) }
    requires few { length names.now ≤ RANKS }
    ensures judged { IfOk result (HasJudged AreStrictFindings (map string_bytes names.now) (L.source logs.new) (L.opened logs.new)) }
    ensures stopped { IfErr result (λ stop. HasStopped stop (map string_bytes names.now) (L.source logs.old) (L.source logs.new) (L.opened logs.new)) }
{
    let audit = read_logs(alloc, names, logs)?;
    Ok(audit.finish_strict()?)
}

/// Opens the logs of these names, reads them to their ends, and answers what an audit finds in them, with the cuts that explain the
/// finding of this number.
pub(crate) fn judge_explained<L: Logs>(
    alloc: Global,
    names: &[String],
    number: u32,
    logs: &mut L,
) -> Result<Explained, Stop>
    requires fresh { IsFresh (L.source logs.old) (L.opened logs.old) }
    requires few { length names.now ≤ RANKS }
    requires from_one { 1 ≤ number }
    ensures judged { IfOk result (λ explained. HasJudged (λ texts found. AreExplained texts number found explained.cuts)
        (map string_bytes names.now) (L.source logs.new) (L.opened logs.new) explained.findings) }
    ensures stopped { IfErr result (λ stop. HasStopped stop (map string_bytes names.now) (L.source logs.old) (L.source logs.new) (L.opened logs.new)) }
{
    let audit = read_logs(alloc, names, logs)?;
    Ok(audit.finish_explained(number)?)
}

/// Opens the logs of these names, and reads them to their ends.
fn read_logs<L: Logs>(alloc: Global, names: &[String], logs: &mut L) -> Result<Audit, Stop>
    requires fresh { IsFresh (L.source logs.old) (L.opened logs.old) }
    requires few { length names.now ≤ RANKS }
    ensures read { IfOk result (HasRead (map string_bytes names.now) (L.source logs.new) (L.opened logs.new)) }
    ensures few { IfOk result (λ audit. length audit ≤ RANKS) }
    ensures stopped { IfErr result (λ stop. HasStopped stop (map string_bytes names.now) (L.source logs.old) (L.source logs.new) (L.opened logs.new)) }
{
    let mut room = new_room(alloc)?;
    let mut audit = Audit::new(alloc, names.len() as u32)?;
    open_all(logs, names)?;
    read_all(logs, &mut room, &mut audit)?;
    Ok(audit)
}

/// Reads the logs of a trial to their ends, and answers what an audit finds in them.
pub(crate) fn judge_trial(alloc: Global, trial: Trial) -> Result<Findings, Memory>
    requires { CanRun trial }
    ensures { IfOk result (λ findings. HasTried trial findings) }
{
    let mut room = new_room(alloc)?;
    let mut audit = Audit::new(alloc, trial.ranks)?;
    let mut logs = TrialLogs::new(trial.ranks, trial.rounds, trial.seed);
    match read_all(&mut logs, &mut room, &mut audit) {
        Ok(()) => audit.finish(),
        Err(stop) => Err(memory_of(stop)),
    }
}

/// The want of memory for which the reading stopped.
fn memory_of(stop: Stop) -> Memory
    requires { stop ≡ Stop.Memory }
{
    match stop {
        Stop::Memory => Memory,
        Stop::Fault => unreachable!(),
        Stop::TooLarge { bytes: _ } => unreachable!(),
    }
}

/// Room for the bytes that are read at once.
fn new_room(alloc: Global) -> Result<Vec<u8>, Memory>
    ensures { IfOk result (λ room. vec_len room ≡ ROOM) }
{
    Ok(vec![in alloc; 0; ROOM]?)
}
