//! The words of the command line.
ghost use Rattle.std.specs.Prelude.{◌≡◌, ◌⊎◌, length, map, string_bytes};
ghost use Rattle.rma_command.specs.Words as asked;
ghost use Rattle.rma_command.specs.Words.{AskFor, AreFaulty, names_of};

use rma_audit::Status;
use rma_command::Command;
use std::alloc::Global;
use std::env::{Env, FillError};

/// The room that is tried first for a word, in bytes.
const ROOM: usize = 256;

/// The words after the program's name, which is not read.
///
/// # Errors
///
/// `Status::Usage` where a word is not UTF-8, and `Status::Memory` where memory ran out.
pub fn words_given<R: Env>(rt: &R, alloc: Global) -> Result<Vec<String>, Status> {
    let mut words = Vec::new(alloc);
    for index in 1..usize::MAX {
        let Some(word) = word_at(rt, alloc, index)? else {
            break;
        };
        if words.push(word).is_err() {
            return Err(Status::Memory);
        }
    }
    Ok(words)
}

/// The word at this index, if there is one, in room that doubles until the word fits.
fn word_at<R: Env>(rt: &R, alloc: Global, index: usize) -> Result<Option<String>, Status> {
    let mut size = ROOM;
    for _ in 0..usize::BITS {
        let Ok(mut room) = vec![in alloc; 0u8; size] else {
            return Err(Status::Memory);
        };
        match rt.arg(index, &mut room) {
            Ok(len) => {
                room.truncate(len);
                return String::from_utf8(room).map(Some).map_err(|_| Status::Usage);
            }
            Err(FillError::NotPresent) => return Ok(None),
            Err(FillError::TooLong) => size = size.saturating_mul(2),
        }
    }
    Err(Status::Memory)
}

/// How many logs the words name: none where they are no command or ask for a trial.
pub fn names_in(words: &[String]) -> usize
    ensures { AreFaulty (map string_bytes words.now) ⊎ ((command : asked.Command) × AskFor (map string_bytes words.now) command × (result ≡ length (names_of command))) }
{
    match Command::of_words(words) {
        Some(Command::Audit(audit)) => audit.names.len(),
        Some(Command::Strict(strict)) => strict.names.len(),
        Some(Command::Explain(explain)) => explain.names.len(),
        Some(Command::Trial(_)) | None => 0,
    }
}
