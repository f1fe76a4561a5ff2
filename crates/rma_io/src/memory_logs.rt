//! A source of logs in memory, which can be told to fail.
ghost use Rattle.std.specs.Prelude.{◌≡◌, ◌≤◌, ◌+◌, ◌<◌, ◌^◌, ◌++◌, ◌∷◌, ◌↔◌, [], All, Contains, IsTrue, MatchOption, OnErr, OnOk, length, map, string_bytes, Some, None, Ok};
ghost use Rattle.std.proofs.Common.{sym, ◌∙◌};
ghost use Rattle.std.proofs.lemmas.List.{length-map};
ghost use Rattle.rma_io.specs.Source.{IsPulled, IsOpened, pulled_len};
ghost use Rattle.rma_io.specs.MemoryLogs.{uncalled, text_of, source_of, opened_of, files_of, KeepsOpened, IsMemoryPull, IsMemoryOpen, IsFirstNamedAt, NoneNamed, MustFail, AddsFile};
ghost use Rattle.rma_io.specs.Log.{known_bytes};
ghost use Rattle.rma_io.specs.ScheduledRead.{IsScheduledRead};
ghost use Rattle.rma_io.specs.Count.{raised};

use crate::open_log::OpenLogs;
use crate::source::{Failed, Logs, OpenFault, Pull, Pulls};
use std::alloc::Global;
use std::marker::Model;

/// A source that has files in memory, and fails where it is told to. Each open of a name makes a log of its own, with
/// all the bytes of the first file of that name.
#[derive(Drop)]
pub struct MemoryLogs {
    alloc: Global,
    // The name and the bytes of each file.
    files: Vec<(String, Vec<u8>)>,
    // The numbers of the calls that fail, and the number of the next call.
    fails: Vec<u32>,
    calls: u64,
    opened: OpenLogs,
    // The name last refused.
    refused: Option<String>,
    // How many bytes were taken of all logs.
    taken: u64,
    faults: u64,
}

impl Model for MemoryLogs {
    ghost use Rattle.std.specs.Prelude.{All, option_map, string_bytes};
    ghost use Rattle.rma_io.specs.MemoryLogs.{MemorySource, files_of, text_of};
    ghost use Rattle.rma_io.specs.inside.OpenLogs.{FitsFile, logs_at};

    ghost Value = { MemorySource };

    ghost view = { λ a. record {
      files = files_of a.files.items;
      cuts = a.opened.cuts;
      fails = a.fails.items;
      calls = a.calls;
      logs = logs_at (text_of (files_of a.files.items)) a.opened.logs;
      refused = option_map string_bytes a.refused;
      taken = a.taken;
      faults = a.faults;
    } };

    ghost invariant = { λ a. All (FitsFile (text_of (files_of a.files.items))) a.opened.logs };
}

/// Whether the call of this number is one of those that fail.
fn is_planned(fails: &[u32], number: u64) -> bool
    ensures { IsTrue result ↔ Contains fails.now number }
{
    fails.iter().any(|fail| u64::from(*fail) == number)
}

/// The index of the first file of this name, if there is one.
fn index_of(files: &[(String, Vec<u8>)], name: &str) -> Option<usize>
    ensures { MatchOption result
        (NoneNamed (files_of files.now) name.now)
        (IsFirstNamedAt (files_of files.now) name.now) }
{
    for (index, file) in files.iter().enumerate() {
        if file.0.as_str() == name {
            return Some(index);
        }
    }
    None
}

/// The bytes of the file at this index, or none where there is no such file.
fn text(files: &[(String, Vec<u8>)], index: usize) -> &[u8]
    ensures { result.now ≡ text_of (files_of files.now) index }
{
    match files.get(index) {
        Some(file) => &file.1,
        None => &[],
    }
}

impl MemoryLogs {
    /// A source that was not called yet. Calls of `open` and of `pull` are counted together from 0, and those whose
    /// number is in `fails` fail. A pair `(rank, len)` of `cuts` makes a pull give `len` bytes of that log, where 0
    /// counts as 1, as far as they are there and there is room; pairs of logs with nothing left are passed over.
    /// After the last pair the lowest rank with bytes left is read, as much as fits.
    pub fn new(
        alloc: Global,
        files: Vec<(String, Vec<u8>)>,
        cuts: Vec<(u32, u32)>,
        fails: Vec<u32>,
    ) -> MemoryLogs
        ensures { result ≡ uncalled (files_of files.items) cuts.items fails.items }
    {
        MemoryLogs {
            alloc,
            files,
            fails,
            calls: 0,
            opened: OpenLogs::new(alloc, cuts),
            refused: None,
            taken: 0,
            faults: 0,
        }
    }

    /// Counts a call, and answers whether it is to fail.
    fn is_to_fail(&mut self) -> bool
        ensures planned { IsTrue result ↔ MustFail self.old }
        ensures counted { self.new ≡ record self.old { calls = raised self.old.calls 1 } }
    {
        let number = self.calls;
        self.calls = self.calls.saturating_add(1);
        is_planned(&self.fails, number)
    }

    /// Reads the next bytes, where there are some.
    fn read_next(&mut self, room: &mut [u8]) -> Pull
        requires room { 0 < length room.old }
        requires small { self.old.taken + length room.old ≤ 2 ^ 62 }
        ensures read { IsScheduledRead self.old.logs self.old.cuts room.old result
            self.new.logs self.new.cuts room.new }
        ensures same { self.new ≡ record self.old {
          cuts = self.new.cuts;
          logs = self.new.logs;
          taken = self.old.taken + pulled_len (Ok result);
        } }
    {
        let Some(chunk) = self.opened.next_chunk(room.len()) else {
            return Pull::Done;
        };
        chunk.read(text(&self.files, chunk.file), room);
        self.taken += chunk.len as u64;
        Pull::Bytes {
            rank: chunk.rank,
            len: chunk.len,
        }
    }

    /// Adds a log with the bytes of the file at this index.
    ///
    /// # Errors
    ///
    /// `OpenFault::Memory` where memory ran out; nothing changes.
    fn add(&mut self, name: String, index: usize) -> Result<(), OpenFault>
        requires there { index < length self.old.files }
        requires ranks { length self.old.logs + 1 < 2 ^ 32 }
        ensures { AddsFile self.old (string_bytes name) index result self.new }
    {
        let len = text(&self.files, index).len();
        match self.opened.add(name, index, len) {
            Ok(()) => Ok(()),
            Err(_) => Err(OpenFault::Memory),
        }
    }

    /// Refuses a name, and keeps it.
    fn refuse(&mut self, name: String)
        ensures { self.new ≡ record self.old {
          refused = Some (string_bytes name);
          faults = raised self.old.faults 1;
        } }
    {
        self.refused = Some(name);
        self.faults = self.faults.saturating_add(1);
    }
}

impl Pulls for MemoryLogs {
    ghost source = { source_of };

    ghost stays = { KeepsOpened };

    fn pull(&mut self, room: &mut [u8]) -> Result<Pull, Failed>
        requires room { 0 < length room.old }
        requires small { self.old.taken + length room.old ≤ 2 ^ 62 }
        ensures pulled { IsPulled (source_of self.old) room.new result (source_of self.new) }
        ensures stays { KeepsOpened self.old self.new }
        ensures exactly { IsMemoryPull self.old room.old result self.new room.new }
    {
        if self.is_to_fail() {
            self.faults = self.faults.saturating_add(1);
            return Err(Failed);
        }
        Ok(self.read_next(room))
    }
}

impl Logs for MemoryLogs {
    ghost opened = { opened_of };

    fn open(&mut self, name: &str) -> Result<(), OpenFault>
        requires { length self.old.logs + 1 < 2 ^ 32 }
        ensures opened { IsOpened (source_of self.old) (opened_of self.old) name.now result
            (source_of self.new) (opened_of self.new) }
        ensures exactly { IsMemoryOpen self.old name.now result self.new }
    {
        let fails = self.is_to_fail();
        let Ok(copy) = String::from_str(self.alloc, name) else {
            return Err(OpenFault::Memory);
        };
        match index_of(&self.files, name) {
            Some(index) if !fails => self.add(copy, index),
            _ => {
                self.refuse(copy);
                Err(OpenFault::Failed)
            }
        }
    }

    ghost one_log_a_name = { λ s. length-map s.logs known_bytes ∙ sym (length-map s.logs (λ log. log.name)) };

    ghost pulls_keep = { λ a b kept. kept };
}
