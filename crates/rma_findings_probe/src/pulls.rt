//! The logs of a trial, pulled piece by piece.
ghost use Rattle.std.specs.Prelude.{◌≡◌, ◌<◌, length, vec_len, IfOk};
ghost use Rattle.rma_gen.specs.Trial.{CanRun};

use rma_gen::{Trial, TrialLogs};
use rma_io::{Pull, Pulls};
use rma_table::Failure;
use std::alloc::Global;
use std::str::from_utf8;

/// How many bytes are pulled at once.
const ROOM: usize = 65_536;

/// The logs of a trial as texts, by rank.
///
/// # Errors
///
/// `Memory` where there is none left.
pub fn texts_of(alloc: Global, trial: Trial) -> Result<Vec<String>, Failure>
    requires { CanRun trial }
{
    let mut room = new_room(alloc)?;
    let mut texts = empty_texts(alloc, trial.ranks)?;
    let mut logs = TrialLogs::new(trial.ranks, trial.rounds, trial.seed);
    pull_texts(&mut logs, &mut room, &mut texts)?;
    Ok(texts)
}

/// Room for the bytes that are pulled at once.
pub(crate) fn new_room(alloc: Global) -> Result<Vec<u8>, Failure>
    ensures { IfOk result (λ room. vec_len room ≡ ROOM) }
{
    Ok(vec![in alloc; 0; ROOM]?)
}

/// So many empty texts.
fn empty_texts(alloc: Global, ranks: u32) -> Result<Vec<String>, Failure> {
    let mut texts = Vec::new(alloc);
    for _ in 0..ranks {
        texts.push(String::new(alloc))?;
    }
    Ok(texts)
}

/// Pulls all logs to their ends, and appends each piece to the text of its rank.
fn pull_texts(logs: &mut TrialLogs, room: &mut [u8], texts: &mut Vec<String>) -> Result<(), Failure>
    requires { 0 < length room.old }
{
    for _ in 0..u64::MAX {
        if !pull_text(logs, room, texts)? {
            return Ok(());
        }
    }
    Err(Failure::Row)
}

/// Pulls the next piece of a log, and appends it to the text of its rank. It answers whether there was one.
fn pull_text(
    logs: &mut TrialLogs,
    room: &mut [u8],
    texts: &mut Vec<String>,
) -> Result<bool, Failure>
    requires { 0 < length room.old }
{
    match logs.pull(room) {
        Err(_) => Err(Failure::Row),
        Ok(Pull::Done) => Ok(false),
        Ok(Pull::Bytes { rank, len }) => {
            append(texts, rank, &room[..len])?;
            Ok(true)
        }
    }
}

/// Appends a piece to the text of a rank.
fn append(texts: &mut Vec<String>, rank: u32, piece: &[u8]) -> Result<(), Failure> {
    let Ok(piece) = from_utf8(piece) else {
        return Err(Failure::Row);
    };
    match texts.get_mut(rank as usize) {
        Some(text) => Ok(text.push_str(piece)?),
        None => Err(Failure::Row),
    }
}
