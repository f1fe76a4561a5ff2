//! Files as the logs of a run.
ghost use Rattle.std.specs.Prelude.{◌≡◌, ◌+◌, ◌^◌, ◌<◌, ◌≤◌, false, vec_len, vec_capacity, length, IfOk, IfErr, OnOk, OnErr};
ghost use Rattle.std.proofs.Common.{sym, ◌∙◌};
ghost use Rattle.std.proofs.lemmas.List.{length-map};
ghost use Rattle.rma_io.specs.Count.{raised};
ghost use Rattle.std.specs.Io.{ReadsAtMost};
ghost use Rattle.std.specs.Io.KnownBytes.{ReadConsumes};
ghost use Rattle.rma_cli.specs.Files.{unopened, IsJustOpened};
ghost use Rattle.rma_cli.specs.inside.Files.{progress_of};

use rma_io::{Failed, Logs, OpenFault, Pull, Pulls};
use std::alloc::{AllocError, Global};
use std::fs;
use std::io::{ErrorKind, Read};
use std::marker::Model;
use std::rt::Files;

/// The most bytes that one read of a file takes.
const CHUNK: usize = 65_536;

/// The most files that stay open together.
const OPEN: usize = 256;

/// How far the file of a log is read.
#[derive(Drop)]
enum Reading<F: Read + Drop> {
    /// It is open.
    Open(F),
    /// It was opened once, as a test, and is closed until the log is read.
    Closed,
    /// It was read to its end, and is closed.
    Ended,
}

/// A log.
#[derive(Drop)]
struct LogFile<F: Read + Drop> {
    // The name of its file.
    name: String,
    // How far that is read.
    file: Reading<F>,
}

impl<F: Read + Drop> Model for LogFile<F> {
    ghost use Rattle.std.specs.Prelude.{string_bytes};
    ghost use Rattle.rma_cli.specs.Files as files;
    ghost use Rattle.rma_cli.specs.inside.Files.{progress_of};

    ghost Value = { files.LogFile };

    ghost view = { λ s. record { name = string_bytes s.name; progress = progress_of F.remaining s.file } };
}

/// Counts one more fault.
fn count(faults: &mut u64)
    ensures { faults.new ≡ raised faults.old 1 }
{
    *faults = faults.saturating_add(1);
}

/// Opens a file, and counts an open that failed.
///
/// # Errors
///
/// `Failed` where the file could not be opened, for whatever reason.
fn opened<R: Files>(system: &R, name: &str, faults: &mut u64) -> Result<R::File, Failed>
    ensures counted { OnErr result (faults.new ≡ raised faults.old 1) }
    ensures not_counted { OnOk result (faults.new ≡ faults.old) }
{
    match fs::open(system, name) {
        Ok(file) => Ok(file),
        Err(_) => {
            count(faults);
            Err(Failed)
        }
    }
}

/// Reads at most one chunk of a file, and counts a read that failed.
///
/// # Errors
///
/// `Failed` where the file could not be read: nothing was taken of it.
fn read_chunk<F: Read>(file: &mut F, room: &mut [u8], faults: &mut u64) -> Result<usize, Failed>
    ensures bound { ReadsAtMost result room.new }
    ensures bytes { ReadConsumes (F.remaining file.old) (F.remaining file.new) result room.new }
    ensures counted { OnErr result (faults.new ≡ raised faults.old 1) }
    ensures not_counted { OnOk result (faults.new ≡ faults.old) }
{
    let most = room.len().min(CHUNK);
    match file.read(&mut room[..most]) {
        Ok(len) => Ok(len),
        Err(_) => {
            count(faults);
            Err(Failed)
        }
    }
}

impl<F: Read + Drop> LogFile<F> {
    ghost use Rattle.rma_cli.specs.Files.{left_of, IsOpen};
    ghost use Rattle.rma_cli.specs.Files as files;
    ghost use Rattle.rma_cli.specs.inside.Files.{IsReadToEnd};

    /// Reads at most one chunk, and counts what failed. A file that is closed is opened for it, and then stays open.
    ///
    /// # Errors
    ///
    /// `Failed` where the file could not be opened or read: nothing was taken of the log.
    fn read<R: Files<File = F>>(
        &mut self,
        system: &R,
        room: &mut [u8],
        faults: &mut u64,
    ) -> Result<usize, Failed>
        ensures bound { ReadsAtMost result room.new }
        ensures bytes { ReadConsumes (left_of self.old.progress) (left_of self.new.progress) result room.new }
        ensures open { IfOk result (λ len. 0 < len → IsOpen self.new.progress) }
        ensures end { IfOk result (λ len. len ≡ 0 → 0 < length room.new → IsReadToEnd self.new.progress) }
        ensures name { self.new.name ≡ self.old.name }
        ensures counted { OnErr result (faults.new ≡ raised faults.old 1) }
        ensures not_counted { OnOk result (faults.new ≡ faults.old) }
    {
        match &mut self.file {
            Reading::Open(file) => read_chunk(file, room, faults),
            Reading::Closed => self.read_first(system, room, faults),
            Reading::Ended => Ok(0),
        }
    }

    /// Opens a file that is closed, and reads at most one chunk of it.
    ///
    /// # Errors
    ///
    /// As [`LogFile::read`].
    fn read_first<R: Files<File = F>>(
        &mut self,
        system: &R,
        room: &mut [u8],
        faults: &mut u64,
    ) -> Result<usize, Failed>
        requires { self.old.progress ≡ files.Closed }
        ensures bound { ReadsAtMost result room.new }
        ensures open { OnOk result (IsOpen self.new.progress) }
        ensures end { IfOk result (λ len. len ≡ 0 → 0 < length room.new → IsReadToEnd self.new.progress) }
        ensures name { self.new.name ≡ self.old.name }
        ensures counted { OnErr result (faults.new ≡ raised faults.old 1) }
        ensures not_counted { OnOk result (faults.new ≡ faults.old) }
    {
        let mut file = opened(system, &self.name, faults)?;
        let answer = read_chunk(&mut file, room, faults);
        self.file = Reading::Open(file);
        answer
    }

    /// Closes a file that was read to its end.
    fn close(&mut self)
        requires { IsReadToEnd self.old.progress }
        ensures { self.new ≡ record self.old { progress = files.Ended } }
    {
        self.file = Reading::Ended;
    }
}

/// Files that are read in chunks: up to 256 in turns, in the order of their names, and more one after the other.
#[derive(Drop)]
pub struct FileLogs<R: Files + Drop> {
    system: R,
    alloc: Global,
    // Whether files are read in turns, and stay open until they end. Else one file is open at a time.
    in_turns: bool,
    // The log of each rank.
    files: Vec<LogFile<R::File>>,
    // The ranks whose files were not read to their ends, in order, and the index of the next one to read.
    unended: Vec<u32>,
    next: usize,
    // The name last refused.
    refused: Option<String>,
    // How many bytes were read of all files.
    taken: u64,
    // How often a file could not be opened or read.
    faults: u64,
}

impl<R: Files + Drop> Model for FileLogs<R> {
    ghost use Rattle.std.specs.Prelude.{◌≡◌, ◌<◌, false, length, option_map, string_bytes, All};
    ghost use Rattle.rma_cli.specs.Files.{Files};
    ghost use Rattle.rma_cli.specs.inside.Files.{OthersEnded, OneOpen};

    ghost Value = { Files };

    ghost view = { λ s. record {
      in_turns = s.in_turns;
      files = s.files.items;
      refused = option_map string_bytes s.refused;
      taken = s.taken;
      faults = s.faults;
    } };

    ghost invariant = { λ s. record {
      ranks : All (λ rank. rank < length s.files.items) s.unended.items;
      ended : OthersEnded s.unended.items s.files.items;
      next : 0 < s.next → s.next < length s.unended.items;
      first : s.in_turns ≡ false → s.next ≡ 0;
      one : s.in_turns ≡ false → OneOpen s.unended.items s.files.items;
    } };
}

impl<R: Files + Drop> FileLogs<R> {
    /// No file is opened yet. `names` is how many will be at most: up to 256 are read in turns, and more one after the other.
    pub fn new(system: R, alloc: Global, names: usize) -> Self
        ensures { result ≡ unopened names }
    {
        FileLogs {
            system,
            alloc,
            in_turns: names <= OPEN,
            files: Vec::new(alloc),
            unended: Vec::new(alloc),
            next: 0,
            refused: None,
            taken: 0,
            faults: 0,
        }
    }
}

/// Makes room for one more item.
///
/// # Errors
///
/// `OpenFault::Memory` where memory ran out.
fn make_room<T>(items: &mut Vec<T>) -> Result<(), OpenFault>
    ensures items { items.new.items ≡ items.old.items }
    ensures room { OnOk result (vec_len items.new < vec_capacity items.new) }
    ensures memory { IfErr result (λ fault. fault ≡ OpenFault.Memory) }
{
    match items.reserve(1) {
        Ok(()) => Ok(()),
        Err(AllocError) => Err(OpenFault::Memory),
    }
}

/// The index at which reading goes on: after the last one comes the first.
fn wrapped(index: usize, len: usize) -> usize
    ensures there { index < len → result ≡ index }
    ensures after { len ≤ index → result ≡ 0 }
    ensures within { 0 < result → result < len }
{
    if index < len { index } else { 0 }
}

/// The index of the file to read after some bytes of this one came: in turns the next one, and else the same.
fn index_after(index: usize, in_turns: bool, len: usize) -> usize
    requires { index < len }
    ensures same { in_turns ≡ false → result ≡ index }
    ensures within { 0 < result → result < len }
{
    if in_turns {
        wrapped(index + 1, len)
    } else {
        index
    }
}

/// A file that was just opened: in turns it stays open, and else it is closed.
fn kept<F: Read + Drop>(in_turns: bool, file: F) -> Reading<F>
    ensures { IsJustOpened in_turns (progress_of F.remaining result) }
{
    if in_turns {
        Reading::Open(file)
    } else {
        Reading::Closed
    }
}

impl<R: Files + Drop> Pulls for FileLogs<R> {
    ghost use Rattle.std.specs.Prelude.{◌≡◌};
    ghost use Rattle.rma_cli.specs.Files.{source_of, opened_of, SawEnds, AreOneByOne};
    ghost use Rattle.rma_io.specs.Source.{IsPulled};

    ghost source = { source_of };

    ghost stays = { λ before after. opened_of after ≡ opened_of before };

    fn pull(&mut self, room: &mut [u8]) -> Result<Pull, Failed>
        requires room { 0 < length room.old }
        requires small { self.old.taken + length room.old ≤ 2 ^ 62 }
        ensures pulled { IsPulled (source_of self.old) room.new result (source_of self.new) }
        ensures stays { opened_of self.new ≡ opened_of self.old }
        ensures ends { SawEnds result self.new }
        ensures order { self.new.in_turns ≡ self.old.in_turns }
        ensures one { self.new.in_turns ≡ false → AreOneByOne self.new.files }
    {
        while self.next < self.unended.len() {
            let rank = self.unended[self.next];
            let file = &mut self.files[rank as usize];
            match file.read(&self.system, room, &mut self.faults) {
                Ok(0) => {
                    file.close();
                    let _ = self.unended.remove(self.next);
                }
                Ok(len) => {
                    self.next = index_after(self.next, self.in_turns, self.unended.len());
                    self.taken += len as u64;
                    return Ok(Pull::Bytes { rank, len });
                }
                Err(failed) => return Err(failed),
            }
            self.next = wrapped(self.next, self.unended.len());
        }
        Ok(Pull::Done)
    }
}

impl<R: Files + Drop> Logs for FileLogs<R> {
    ghost use Rattle.rma_cli.specs.Files.{source_of, opened_of, bytes_of, AddsFile, AreOneByOne};
    ghost use Rattle.rma_io.specs.Source.{IsOpened};

    ghost opened = { opened_of };

    fn open(&mut self, name: &str) -> Result<(), OpenFault>
        requires few { length self.old.files + 1 < 2 ^ 32 }
        ensures opened { IsOpened (source_of self.old) (opened_of self.old) name.now result (source_of self.new) (opened_of self.new) }
        ensures added { OnOk result (AddsFile self.old self.new) }
        ensures kept { OnErr result (self.new.files ≡ self.old.files) }
        ensures order { self.new.in_turns ≡ self.old.in_turns }
        ensures one { self.new.in_turns ≡ false → AreOneByOne self.new.files }
    {
        let Ok(copy) = String::from_str(self.alloc, name) else {
            return Err(OpenFault::Memory);
        };
        make_room(&mut self.files)?;
        make_room(&mut self.unended)?;
        match fs::open(&self.system, name) {
            Ok(file) => {
                let rank = self.files.len() as u32;
                let file = kept(self.in_turns, file);
                let _ = self.files.push(LogFile { name: copy, file });
                let _ = self.unended.push(rank);
                Ok(())
            }
            Err(error) if error.kind() == ErrorKind::OutOfMemory => Err(OpenFault::Memory),
            Err(_) => {
                count(&mut self.faults);
                self.refused = Some(copy);
                Err(OpenFault::Failed)
            }
        }
    }

    ghost one_log_a_name = { λ s. length-map s.files bytes_of ∙ sym (length-map s.files (λ file. file.name)) };

    ghost pulls_keep = { λ before after kept. kept };
}
