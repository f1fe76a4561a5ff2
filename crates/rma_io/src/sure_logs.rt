//! A source of logs in memory that never fails.
ghost use Rattle.std.specs.Prelude.{◌≡◌, ◌≤◌, ◌+◌, ◌<◌, ◌^◌, length, Ok};
ghost use Rattle.std.proofs.Common.{sym, ◌∙◌};
ghost use Rattle.std.proofs.lemmas.List.{length-map};
ghost use Rattle.rma_io.specs.Source.{IsPulled, IsOpened, pulled_len};
ghost use Rattle.rma_io.specs.SureLogs.{unopened, source_of, opened_of, contents_of, text_of, KeepsOpened, IsSurePull, IsSureOpen};
ghost use Rattle.rma_io.specs.Log.{known_bytes};
ghost use Rattle.rma_io.specs.ScheduledRead.{IsScheduledRead};

use crate::open_log::OpenLogs;
use crate::source::{Failed, Logs, OpenFault, Pull, Pulls};
use std::alloc::Global;
use std::marker::Model;

/// A source that never fails. The k-th open from 0 opens the k-th log that it is given, whatever the name, or an
/// empty one where there is none.
#[derive(Drop)]
pub struct SureLogs {
    alloc: Global,
    // The bytes of each log, in the order in which they are opened.
    contents: Vec<Vec<u8>>,
    opened: OpenLogs,
    // How many bytes were taken of all logs.
    taken: u64,
}

impl Model for SureLogs {
    ghost use Rattle.std.specs.Prelude.{All};
    ghost use Rattle.rma_io.specs.SureLogs.{SureSource, contents_of, text_of};
    ghost use Rattle.rma_io.specs.inside.OpenLogs.{FitsFile, logs_at};

    ghost Value = { SureSource };

    ghost view = { λ a. record {
      contents = contents_of a.contents.items;
      cuts = a.opened.cuts;
      logs = logs_at (text_of (contents_of a.contents.items)) a.opened.logs;
      taken = a.taken;
    } };

    ghost invariant = { λ a. All (FitsFile (text_of (contents_of a.contents.items))) a.opened.logs };
}

/// The bytes of the log of this number, or none where there is no such log.
fn text(contents: &[Vec<u8>], number: usize) -> &[u8]
    ensures { result.now ≡ text_of (contents_of contents.now) number }
{
    match contents.get(number) {
        Some(text) => text,
        None => &[],
    }
}

impl SureLogs {
    /// A source that was not called yet. A pair `(rank, len)` of `cuts` makes a pull give `len` bytes of that log,
    /// where 0 counts as 1, as far as they are there and there is room; pairs of logs with nothing left are passed
    /// over. After the last pair the lowest rank with bytes left is read, as much as fits.
    pub fn new(alloc: Global, logs: Vec<Vec<u8>>, cuts: Vec<(u32, u32)>) -> SureLogs
        ensures { result ≡ unopened (contents_of logs.items) cuts.items }
    {
        SureLogs {
            alloc,
            contents: logs,
            opened: OpenLogs::new(alloc, cuts),
            taken: 0,
        }
    }

    /// Reads the next bytes, where there are some.
    fn read_next(&mut self, room: &mut [u8]) -> Pull
        requires room { 0 < length room.old }
        requires small { self.old.taken + length room.old ≤ 2 ^ 62 }
        ensures read { IsScheduledRead self.old.logs self.old.cuts room.old result
            self.new.logs self.new.cuts room.new }
        ensures same { self.new ≡ record self.old {
          cuts = self.new.cuts;
          logs = self.new.logs;
          taken = self.old.taken + pulled_len (Ok result);
        } }
    {
        let Some(chunk) = self.opened.next_chunk(room.len()) else {
            return Pull::Done;
        };
        chunk.read(text(&self.contents, chunk.file), room);
        self.taken += chunk.len as u64;
        Pull::Bytes {
            rank: chunk.rank,
            len: chunk.len,
        }
    }
}

impl Pulls for SureLogs {
    ghost source = { source_of };

    ghost stays = { KeepsOpened };

    fn pull(&mut self, room: &mut [u8]) -> Result<Pull, Failed>
        requires room { 0 < length room.old }
        requires small { self.old.taken + length room.old ≤ 2 ^ 62 }
        ensures pulled { IsPulled (source_of self.old) room.new result (source_of self.new) }
        ensures stays { KeepsOpened self.old self.new }
        ensures exactly { IsSurePull self.old room.old result self.new room.new }
    {
        Ok(self.read_next(room))
    }
}

impl Logs for SureLogs {
    ghost opened = { opened_of };

    fn open(&mut self, name: &str) -> Result<(), OpenFault>
        requires { length self.old.logs + 1 < 2 ^ 32 }
        ensures opened { IsOpened (source_of self.old) (opened_of self.old) name.now result
            (source_of self.new) (opened_of self.new) }
        ensures exactly { IsSureOpen self.old name.now result self.new }
    {
        let Ok(copy) = String::from_str(self.alloc, name) else {
            return Err(OpenFault::Memory);
        };
        let rank = self.opened.len();
        let len = text(&self.contents, rank).len();
        match self.opened.add(copy, rank, len) {
            Ok(()) => Ok(()),
            Err(_) => Err(OpenFault::Memory),
        }
    }

    ghost one_log_a_name = { λ s. length-map s.logs known_bytes ∙ sym (length-map s.logs (λ log. log.name)) };

    ghost pulls_keep = { λ a b kept. kept };
}
