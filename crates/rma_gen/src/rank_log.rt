//! How far the log of a rank was given out.
ghost use Rattle.std.specs.Prelude.{◌≡◌, ◌+◌, ◌<◌, ◌≤◌, ◌==◌, ◌++◌, length, min, take, drop};
ghost use Rattle.rma_gen.specs.Trial.{CanRun};
ghost use Rattle.rma_gen.specs.TrialLogs.{after_taking};
ghost use Rattle.rma_gen.specs.inside.Parts.{IsPlace, advanced, parts_of, tape_at};

use crate::text::{Text, part_text};
use crate::trial::Trial;

/// A place in the log of a rank. Nothing of the log itself is kept: each part is made when it is given out.
#[derive(Clone, Copy, Default, Drop)]
pub(crate) struct RankLog {
    pub(crate) rank: u32,
    /// The part that is given out next.
    pub(crate) part: u32,
    /// How many bytes of it were given out.
    pub(crate) offset: usize,
}

impl RankLog {
    /// Whether nothing is left of the log.
    pub(crate) fn is_read(&self, trial: Trial) -> bool
        requires can_run { CanRun trial }
        ensures { result ≡ (self.now.part == parts_of trial) }
    {
        self.part == trial.rounds + 2
    }

    /// Gives out the next bytes of the log, as many as there are up to `most`, and answers how many.
    pub(crate) fn fill(&mut self, trial: Trial, room: &mut [u8], most: usize) -> usize
        requires can_run { CanRun trial }
        requires place { IsPlace trial self.old }
        requires fits { most ≤ length room.old }
        ensures place { IsPlace trial self.new }
        ensures len { result ≡ min most (length (tape_at trial self.old).left) }
        ensures filled { room.new ≡ take result (tape_at trial self.old).left ++ drop result room.old }
        ensures moved { tape_at trial self.new ≡ after_taking result (tape_at trial self.old) }
    {
        let mut len = 0;
        while len < most && !self.is_read(trial) {
            len += self.fill_part(trial, room, len, most - len);
        }
        len
    }

    /// Gives out the next bytes of a part to the room from `at` on, as many as there are up to `most`, and answers how many.
    fn fill_part(&mut self, trial: Trial, room: &mut [u8], at: usize, most: usize) -> usize
        requires can_run { CanRun trial }
        requires place { IsPlace trial self.old }
        requires some_left { self.old.part < parts_of trial }
        requires some { 0 < most }
        requires fits { at + most ≤ length room.old }
        ensures place { IsPlace trial self.new }
        ensures some { 0 < result }
        ensures fits { result ≤ most }
        ensures there { result ≤ length (tape_at trial self.old).left }
        ensures filled { room.new ≡ take at room.old ++ (take result (tape_at trial self.old).left ++ drop (at + result) room.old) }
        ensures moved { tape_at trial self.new ≡ after_taking result (tape_at trial self.old) }
    {
        let text = part_text(trial, self.rank, self.part);
        let rest = rest_of(&text, self.offset);
        let len = rest.len().min(most);
        copy_from(room, at, rest, len);
        self.advance(len, rest.len());
        len
    }

    /// Goes on by so many bytes of a part of which so many are left.
    fn advance(&mut self, len: usize, left: usize)
        requires within { len ≤ left }
        requires fits { self.old.offset + left ≤ 128 }
        requires part { self.old.part < 2000000 }
        ensures { self.new ≡ advanced len left self.old }
    {
        if len == left {
            self.part += 1;
            self.offset = 0;
        } else {
            self.offset += len;
        }
    }
}

/// The text without its first bytes.
fn rest_of(text: &Text, offset: usize) -> &[u8]
    requires { offset ≤ length text.now.bytes }
    ensures rest { result.now ≡ drop offset text.now.bytes }
    ensures fits { offset + length result.now ≤ 128 }
{
    &text.as_str().as_bytes()[offset..]
}

/// Copies the first bytes of the text into the room from `at` on.
fn copy_from(room: &mut [u8], at: usize, text: &[u8], len: usize)
    requires there { len ≤ length text.now }
    requires fits { at + len ≤ length room.old }
    ensures { room.new ≡ take at room.old ++ (take len text.now ++ drop (at + len) room.old) }
{
    let place = &mut room[at..at + len];
    place.copy_from_slice(&text[..len]);
}
