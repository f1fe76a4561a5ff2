//! Runs of the top call over logs and sinks in memory.
ghost use Rattle.std.specs.Prelude.{◌≡◌, vec_len, IfOk};
ghost use Rattle.rma_audit.specs.Answers.{IsFresh};
ghost use Rattle.rma_io.specs.MemoryLogs.{opened_of, source_of};

use crate::answer::Answer;
use crate::faults::Faults;
use crate::names::name_of;
use crate::order::Order;
use rma_audit::run;
use rma_io::{MemoryLogs, MemorySink, SureLogs, SureSink};
use rma_table::Failure;
use std::alloc::Global;

/// As many bytes as a sink keeps.
const ROOM: usize = 65_536;

/// What these words answer and write over the logs, which are read in an order, where some calls fail.
///
/// # Errors
///
/// `Row` where there are too many logs, and `Memory` where there is none left.
pub fn answered(
    alloc: Global,
    words: &[String],
    logs: &[String],
    order: Order,
    faults: Faults<'_>,
) -> Result<Answer, Failure> {
    let mut source = source_of(alloc, logs, order, faults.reads)?;
    answered_over(alloc, words, &mut source, faults.writes)
}

/// What these words answer and write over a source that was not called yet, where some puts fail.
fn answered_over(
    alloc: Global,
    words: &[String],
    source: &mut MemoryLogs,
    fails: &[(u32, u32)],
) -> Result<Answer, Failure>
    requires { IsFresh (source_of source.old) (opened_of source.old) }
{
    let mut sink = MemorySink::new(new_room(alloc)?, fails.to_vec(alloc)?);
    let status = run(alloc, words, source, &mut sink);
    Answer::of(alloc, status, sink.kept())
}

/// A source of these logs that is read in an order, and fails at the calls of these numbers.
fn source_of(
    alloc: Global,
    logs: &[String],
    order: Order,
    fails: &[u32],
) -> Result<MemoryLogs, Failure>
    ensures { IfOk result (λ source. IsFresh (source_of source) (opened_of source)) }
{
    let files = files_of(alloc, logs)?;
    let cuts = order.cuts_of(alloc, logs)?;
    let fails = fails.to_vec(alloc)?;
    Ok(MemoryLogs::new(alloc, files, cuts, fails))
}

/// The logs as files, each with its name.
fn files_of(alloc: Global, logs: &[String]) -> Result<Vec<(String, Vec<u8>)>, Failure> {
    let mut files = Vec::new(alloc);
    for rank in 0..logs.len() {
        files.push((name_of(alloc, rank)?, logs[rank].as_bytes().to_vec(alloc)?))?;
    }
    Ok(files)
}

/// What these words answer and write over logs and a sink that cannot fail.
///
/// # Errors
///
/// `Memory` where there is none left.
pub fn surely_answered(
    alloc: Global,
    words: &[String],
    logs: &[String],
) -> Result<Answer, Failure> {
    let bytes = bytes_of(alloc, logs)?;
    let mut source = SureLogs::new(alloc, bytes, Vec::new(alloc));
    let mut sink = SureSink::new(new_room(alloc)?);
    let status = run(alloc, words, &mut source, &mut sink);
    Answer::of(alloc, status, sink.kept())
}

/// The bytes of each log.
fn bytes_of(alloc: Global, logs: &[String]) -> Result<Vec<Vec<u8>>, Failure> {
    let mut bytes = Vec::new(alloc);
    for log in logs {
        bytes.push(log.as_bytes().to_vec(alloc)?)?;
    }
    Ok(bytes)
}

/// Room for what a sink keeps.
fn new_room(alloc: Global) -> Result<Vec<u8>, Failure>
    ensures { IfOk result (λ room. vec_len room ≡ ROOM) }
{
    Ok(vec![in alloc; 0; ROOM]?)
}
