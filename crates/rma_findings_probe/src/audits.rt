//! What an audit finds in logs that it is fed.
ghost use Rattle.std.specs.Prelude.{◌≡◌, ◌<◌, ◌≤◌, length, IfOk};
ghost use Rattle.rma_gen.specs.Trial.{CanRun};

use crate::pulls::new_room;
use rma_base::Rank;
use rma_base::limits::{FED, RANKS};
use rma_gen::{Trial, TrialLogs};
use rma_io::{Pull, Pulls};
use rma_report::Findings;
use rma_stream::Audit;
use rma_table::Failure;
use std::alloc::Global;

/// What an audit finds in the logs of a trial, which it is fed as they come.
///
/// # Errors
///
/// `Memory` where there is none left.
pub fn findings_of(alloc: Global, trial: Trial) -> Result<Findings, Failure>
    requires { CanRun trial }
{
    let mut room = new_room(alloc)?;
    let mut audit = Audit::new(alloc, trial.ranks)?;
    let mut logs = TrialLogs::new(trial.ranks, trial.rounds, trial.seed);
    feed_all(&mut logs, &mut room, &mut audit, trial.ranks)?;
    Ok(audit.finish()?)
}

/// What a strict audit finds in some logs.
///
/// # Errors
///
/// `Row` where there are more logs than a run may have, or one is longer than it may be, and `Memory` where there is none left.
pub fn strict_findings_of(alloc: Global, logs: &[String]) -> Result<Findings, Failure> {
    if logs.len() > RANKS {
        return Err(Failure::Row);
    }
    let ranks = logs.len() as u32;
    let mut audit = Audit::new(alloc, ranks)?;
    feed_logs(&mut audit, ranks, logs)?;
    Ok(audit.finish_strict()?)
}

/// Feeds the log of each rank to an audit of so many ranks.
fn feed_logs(audit: &mut Audit, ranks: u32, logs: &[String]) -> Result<(), Failure>
    requires ranks { length audit.old ≡ ranks }
    requires few { length logs.now ≤ RANKS }
    ensures { length audit.new ≡ ranks }
{
    'logs: for rank in 0..logs.len() {
        feed(audit, ranks, rank as u32, logs[rank].as_bytes())?;
    }
    Ok(())
}

/// Pulls all logs of so many ranks to their ends, and feeds them to an audit.
fn feed_all(
    logs: &mut TrialLogs,
    room: &mut [u8],
    audit: &mut Audit,
    ranks: u32,
) -> Result<(), Failure>
    requires room { 0 < length room.old }
    requires ranks { length audit.old ≡ ranks }
    ensures { length audit.new ≡ ranks }
{
    'pieces: for _ in 0..u64::MAX {
        if !feed_piece(logs, room, audit, ranks)? {
            return Ok(());
        }
    }
    Err(Failure::Row)
}

/// Pulls the next piece of one of the logs, and feeds it to an audit. It answers whether there was one.
fn feed_piece(
    logs: &mut TrialLogs,
    room: &mut [u8],
    audit: &mut Audit,
    ranks: u32,
) -> Result<bool, Failure>
    requires room { 0 < length room.old }
    requires ranks { length audit.old ≡ ranks }
    ensures { length audit.new ≡ ranks }
{
    match logs.pull(room) {
        Err(_) => Err(Failure::Row),
        Ok(Pull::Done) => Ok(false),
        Ok(Pull::Bytes { rank, len }) => {
            feed(audit, ranks, rank, &room[..len])?;
            Ok(true)
        }
    }
}

/// Feeds a piece of the log of a rank to an audit of so many ranks.
fn feed(audit: &mut Audit, ranks: u32, rank: u32, piece: &[u8]) -> Result<(), Failure>
    requires { length audit.old ≡ ranks }
    ensures { length audit.new ≡ ranks }
{
    if rank >= ranks {
        return Err(Failure::Row);
    }
    let fed = audit.fed(Rank(rank));
    if fed > FED || piece.len() as u64 > FED - fed {
        return Err(Failure::Row);
    }
    Ok(audit.feed(Rank(rank), piece)?)
}
