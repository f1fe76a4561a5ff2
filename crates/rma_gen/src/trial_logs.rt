//! The logs of a trial as a source.
ghost use Rattle.std.specs.Prelude.{◌≡◌, ◌<◌, ◌≤◌, All, IfSome, IfNone, length, map};
ghost use Rattle.rma_io.specs.Source.{IsPulled};
ghost use Rattle.rma_gen.specs.Trial.{CanRun};
ghost use Rattle.rma_gen.specs.TrialLogs.{IsNext, IsTrialPull, KeepsTexts, NoneLeft, IsServed, lefts, source_of, unread};
ghost use Rattle.rma_gen.specs.inside.Parts.{IsFirstLeft, IsPlace, places_below, tape_at};

use crate::rank_log::RankLog;
use crate::trial::Trial;
use arrayvec::ArrayVec;
use rma_io::{Failed, Pull, Pulls};
use std::marker::Model;

/// The most bytes of one pull.
const PIECE: usize = 4096;

/// The most ranks of a trial.
const RANKS: usize = 64;

/// The logs of a trial, which are made as they are read. It never fails, and takes the same memory for any number of rounds.
#[derive(Drop)]
pub struct TrialLogs {
    trial: Trial,
    // How far the log of each rank was given out.
    logs: ArrayVec<RankLog, RANKS>,
    // The rank whose turn it is.
    turn: usize,
}

impl Model for TrialLogs {
    ghost use Rattle.std.specs.Prelude.{map};
    ghost use Rattle.rma_gen.specs.TrialLogs.{TrialSource};
    ghost use Rattle.rma_gen.specs.inside.Parts.{HasPlaces, tape_at};

    ghost Value = { TrialSource };

    ghost view = { λ a. record { tapes = map (tape_at a.trial) a.logs.items; turn = a.turn } };

    ghost invariant = { λ a. HasPlaces a.trial a.logs.items a.turn };
}

/// The first rank of these whose log has something left.
fn first_left(trial: Trial, logs: &[RankLog], from: usize, to: usize) -> Option<usize>
    requires can_run { CanRun trial }
    requires places { All (IsPlace trial) logs.now }
    requires within { to ≤ length logs.now }
    ensures none { IfNone result (NoneLeft (lefts (map (tape_at trial) logs.now)) from to) }
    ensures some { IfSome result (λ rank. IsFirstLeft (lefts (map (tape_at trial) logs.now)) from rank to) }
{
    for rank in from..to {
        if !logs[rank].is_read(trial) {
            return Some(rank);
        }
    }
    None
}

/// The places where the logs of so many ranks begin.
fn first_places(ranks: u32) -> ArrayVec<RankLog, RANKS>
    requires { ranks ≤ 64 }
    ensures { result.items ≡ places_below ranks }
{
    let mut logs = ArrayVec::new();
    for rank in 0..ranks {
        logs.push(RankLog {
            rank,
            part: 0,
            offset: 0,
        });
    }
    logs
}

impl TrialLogs {
    /// The logs of this trial, of which nothing was taken.
    pub fn new(ranks: u32, rounds: u32, seed: u32) -> TrialLogs
        requires { CanRun (record { ranks = ranks; rounds = rounds; seed = seed }) }
        ensures { result ≡ unread (record { ranks = ranks; rounds = rounds; seed = seed }) }
    {
        TrialLogs {
            trial: Trial {
                ranks,
                rounds,
                seed,
            },
            logs: first_places(ranks),
            turn: 0,
        }
    }

    /// The rank that is served next, if there is one.
    fn next_rank(&self) -> Option<usize>
        ensures none { IfNone result (NoneLeft (lefts self.now.tapes) 0 (length self.now.tapes)) }
        ensures some { IfSome result (λ rank. IsNext (lefts self.now.tapes) self.now.turn rank × (rank < length self.now.tapes) × (rank < 64)) }
    {
        let logs = self.logs.as_slice();
        match first_left(self.trial, logs, self.turn, logs.len()) {
            Some(rank) => Some(rank),
            None => first_left(self.trial, logs, 0, self.turn),
        }
    }

    /// Serves this rank.
    fn serve(&mut self, rank: usize, room: &mut [u8]) -> usize
        requires there { rank < length self.old.tapes }
        ensures { IsServed self.old room.old rank result self.new room.new }
    {
        let ranks = self.logs.len();
        self.turn = (rank + 1) % ranks;
        let most = room.len().min(PIECE);
        let logs = self.logs.as_mut_slice();
        logs[rank].fill(self.trial, room, most)
    }
}

impl Pulls for TrialLogs {
    ghost source = { source_of };

    ghost stays = { KeepsTexts };

    fn pull(&mut self, room: &mut [u8]) -> Result<Pull, Failed>
        requires room { 0 < length room.old }
        ensures pulled { IsPulled (source_of self.old) room.new result (source_of self.new) }
        ensures stays { KeepsTexts self.old self.new }
        ensures exactly { IsTrialPull self.old room.old result self.new room.new }
    {
        let Some(rank) = self.next_rank() else {
            return Ok(Pull::Done);
        };
        let len = self.serve(rank, room);
        Ok(Pull::Bytes {
            rank: rank as u32,
            len,
        })
    }
}
