//! The logs that a source in memory has opened, and which of them is read next.
ghost use Rattle.std.specs.Prelude.{◌≡◌, ◌+◌, ◌-◌, ◌<◌, ◌≤◌, ◌^◌, ◌++◌, ◌∷◌, [], All, IfSome, MatchOption, OnErr, OnOk, string_bytes, length, min, take, drop, map, slice_index, slice_get, slice_set, vec_len};
ghost use Rattle.rma_io.specs.Schedule.{IsIdle, IsZero};
ghost use Rattle.rma_io.specs.inside.OpenLogs.{lefts, unread, advanced, IsFirstLive, IsFirstLeft, IsNextCut, IsNextChunk, IsChunkOf};

use crate::piece::copy_to_start;
use std::alloc::{AllocError, Global};
use std::marker::Model;

/// A log that was opened.
#[derive(Drop)]
struct OpenLog {
    name: String,
    // The number of the file that has its bytes.
    file: usize,
    // How many of its bytes were taken, and how many are left.
    at: usize,
    left: usize,
}

impl Model for OpenLog {
    ghost use Rattle.std.specs.Prelude.{◌+◌, ◌<◌, ◌^◌, string_bytes};
    ghost use Rattle.rma_io.specs.inside.OpenLogs.{Progress};

    ghost Value = { Progress };

    ghost view = { λ a. record { name = string_bytes a.name; file = a.file; at = a.at; left = a.left } };

    ghost invariant = { λ a. a.at + a.left < 2 ^ 64 };
}

/// The bytes to read next.
#[derive(Clone, Copy)]
pub struct Chunk {
    /// The rank whose log they are of.
    pub rank: u32,
    /// How many they are.
    pub len: usize,
    /// The number of the file that has them.
    pub file: usize,
    /// How many bytes of the file come before them.
    pub at: usize,
}

impl Chunk {
    /// Copies these bytes of their file's text to the start of the room.
    pub fn read(self, text: &[u8], room: &mut [u8])
        requires there { self.at + self.len ≤ length text.now }
        requires fits { self.len ≤ length room.old }
        ensures { room.new ≡ take self.len (drop self.at text.now) ++ drop self.len room.old }
    {
        copy_to_start(room, &text[self.at..self.at + self.len]);
    }
}

impl OpenLog {
    /// How many bytes are left.
    fn left(&self) -> usize
        ensures { result ≡ self.now.left }
    {
        self.left
    }

    /// Takes the next bytes of this log, which is that of `rank`, `most` at most.
    fn next_chunk(&mut self, rank: u32, most: usize) -> Chunk
        ensures rank { result.rank ≡ rank }
        ensures len { result.len ≡ min most self.old.left }
        ensures file { result.file ≡ self.old.file }
        ensures at { result.at ≡ self.old.at }
        ensures moved { self.new ≡ advanced result.len self.old }
    {
        let len = most.min(self.left);
        let chunk = Chunk {
            rank,
            len,
            file: self.file,
            at: self.at,
        };
        self.at += len;
        self.left -= len;
        chunk
    }
}

/// How many bytes are left of the log of this rank.
fn left_of(opened: &[OpenLog], rank: u32) -> usize
    ensures { result ≡ slice_index (lefts opened.now) rank }
{
    match opened.get(rank as usize) {
        Some(log) => log.left(),
        None => 0,
    }
}

/// The index of the first pair whose log has bytes left, if there is one.
fn first_live(opened: &[OpenLog], cuts: &[(u32, u32)]) -> Option<usize>
    ensures { MatchOption result
        (All (IsIdle (lefts opened.now)) cuts.now)
        (λ index. IsFirstLive (lefts opened.now) cuts.now index) }
{
    for (index, cut) in cuts.iter().enumerate() {
        if left_of(opened, cut.0) > 0 {
            return Some(index);
        }
    }
    None
}

/// The lowest rank with bytes left, where those below `from` have none.
fn first_left(opened: &[OpenLog], from: usize) -> Option<usize>
    requires { All IsZero (take from (lefts opened.now)) }
    ensures first { IsFirstLeft (lefts opened.now) result }
    ensures within { IfSome result (λ rank. rank < length opened.now) }
{
    for rank in from..opened.len() {
        if opened[rank].left() > 0 {
            return Some(rank);
        }
    }
    None
}

/// The logs opened, and the pairs by which they are read.
#[derive(Drop)]
pub struct OpenLogs {
    // The log of each rank.
    opened: Vec<OpenLog>,
    // Ranks, and how many bytes of their logs to read; those below `used` are used up.
    cuts: Vec<(u32, u32)>,
    used: usize,
    // The logs of the ranks below have nothing left.
    finished: usize,
}

impl Model for OpenLogs {
    ghost use Rattle.std.specs.Prelude.{◌<◌, ◌≤◌, ◌^◌, All, drop, take, vec_len};
    ghost use Rattle.rma_io.specs.inside.OpenLogs.{OpenLogs, lefts};
    ghost use Rattle.rma_io.specs.Schedule.{IsZero};

    ghost Value = { OpenLogs };

    ghost view = { λ a. record { logs = a.opened.items; cuts = drop a.used a.cuts.items } };

    ghost invariant = { λ a. record {
      used_within : a.used ≤ vec_len a.cuts;
      finished_within : a.finished ≤ vec_len a.opened;
      ranks_fit : vec_len a.opened < 2 ^ 32;
      none_below : All IsZero (take a.finished (lefts a.opened.items));
    } };
}

impl OpenLogs {
    /// No log is opened yet.
    pub fn new(alloc: Global, cuts: Vec<(u32, u32)>) -> OpenLogs
        ensures { result ≡ record { logs = []; cuts = cuts.items } }
    {
        OpenLogs {
            opened: Vec::new(alloc),
            cuts,
            used: 0,
            finished: 0,
        }
    }

    /// How many logs were opened.
    pub fn len(&self) -> usize
        ensures { result ≡ length self.now.logs }
    {
        self.opened.len()
    }

    /// Adds the log of the next rank, of `len` bytes.
    ///
    /// # Errors
    ///
    /// Where memory ran out; nothing changes.
    pub fn add(&mut self, name: String, file: usize, len: usize) -> Result<(), AllocError>
        requires { length self.old.logs + 1 < 2 ^ 32 }
        ensures ok { OnOk result (self.new ≡ record self.old {
          logs = self.old.logs ++ unread (string_bytes name) file len ∷ [];
        }) }
        ensures err { OnErr result (self.new ≡ self.old) }
    {
        let log = OpenLog {
            name,
            file,
            at: 0,
            left: len,
        };
        self.opened.push(log)?;
        Ok(())
    }

    /// Takes the bytes to read next into a room of this size, or nothing where nothing is left.
    pub fn next_chunk(&mut self, room: usize) -> Option<Chunk>
        ensures { IsNextChunk self.old room result self.new }
    {
        let (rank, most) = match self.next_cut() {
            Some((rank, asked)) => (rank, room.min(asked.max(1) as usize)),
            None => (self.lowest()?, room),
        };
        Some(self.chunk_of(rank, most))
    }

    /// The next pair whose log has bytes left. It and those before it are used up.
    fn next_cut(&mut self) -> Option<(u32, u32)>
        ensures next { IsNextCut (lefts self.old.logs) self.old.cuts result self.new.cuts }
        ensures logs { self.new.logs ≡ self.old.logs }
    {
        let Some(ahead) = first_live(&self.opened, &self.cuts[self.used..]) else {
            self.used = self.cuts.len();
            return None;
        };
        let cut = self.cuts[self.used + ahead];
        self.used += ahead + 1;
        Some(cut)
    }

    /// The lowest rank with bytes left.
    fn lowest(&mut self) -> Option<u32>
        ensures lowest { IsFirstLeft (lefts self.old.logs) result }
        ensures same { self.new ≡ self.old }
    {
        let Some(rank) = first_left(&self.opened, self.finished) else {
            self.finished = self.opened.len();
            return None;
        };
        self.finished = rank;
        Some(rank as u32)
    }

    /// Takes the next bytes of the log of this rank, which has some, `most` at most.
    fn chunk_of(&mut self, rank: u32, most: usize) -> Chunk
        requires { 0 < slice_index (lefts self.old.logs) rank }
        ensures { IsChunkOf self.old rank most result self.new }
    {
        let log = &mut self.opened[rank as usize];
        log.next_chunk(rank, most)
    }
}
