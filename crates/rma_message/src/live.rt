//! The messages of a run, as its calls come.
ghost use Rattle.std.specs.Prelude.{◌≡◌, ◌<◌, ◌*◌, ◌==◌, ◌++◌, ◌∷◌, [], ℕ, List, Some, None, false, length, slice_get, OnOk, if◌then◌else◌};
ghost use Rattle.std.specs.Option.{option_map_or};
ghost use Rattle.rma_base.specs.declared.line.LineNo.{LineNo};
ghost use Rattle.rma_base.specs.declared.rank.Rank.{Rank};
ghost use Rattle.rma_call.specs.Call.{Call, call_of};
ghost use Rattle.rma_call.specs.declared.what.What.TheVariants.{Sync};
ghost use Rattle.rma_call.specs.declared.what.SyncCall.TheVariants.{Message};
ghost use Rattle.rma_run.specs.Run.{with_calls};
ghost use Rattle.rma_message.specs.declared.key.Key.{Key};
ghost use Rattle.rma_message.specs.declared.source.MessageSource.TheVariants.{Unknown, From};
ghost use Rattle.rma_message.specs.Key.{same_key};
ghost use Rattle.rma_message.specs.RankMessages.{RankMessages, with_what};
ghost use Rattle.rma_message.specs.Source.{source_of};
ghost use Rattle.rma_message.specs.inside.Live.{AreBefore, IsOfRank, Represents, kept_of, kept_sends};

use crate::key::Key;
use crate::rank_receives::RankReceives;
use crate::source::MessageSource;
use indexmap::IndexMap;
use rma_base::limits::FED;
use rma_base::{Memory, Point, Rank, Sequence};
use rma_call::{CallRef, MessageCall, WhatRef};
use std::alloc::Global;

/// The messages of a run, as its calls come. Whatever is pending, calls cost the same on average: each receive is numbered
/// once, when it and all that its rank posted before it on its communicator are complete.
#[derive(Drop)]
pub struct LiveMessages {
    /// Where tables take their memory.
    alloc: Global,
    /// By key the positions of the entries of its sends, ascending.
    sends: IndexMap<Key, Sequence<u32>>,
    /// The receives of each rank.
    receives: IndexMap<Rank, RankReceives>,
}

impl LiveMessages {
    /// No calls.
    pub fn new(alloc: Global) -> LiveMessages
        ensures { Represents (λ _. []) result }
    {
        LiveMessages {
            alloc,
            sends: IndexMap::new(alloc),
            receives: IndexMap::new(alloc),
        }
    }

    /// Takes the next call of a rank: its number among the calls of that rank, from 0, is that of the calls of the rank
    /// before it. The calls of the ranks may come in any order of the ranks.
    ///
    /// # Errors
    ///
    /// `Memory`, also where a rank makes more calls than a run may have, and then nothing is said of what is kept.
    pub fn take(&mut self, rank: Rank, number: u32, call: CallRef<'_>) -> Result<(), Memory>
        ensures { OnOk result ((calls : ℕ → List Call) → length (calls rank.0) ≡ number → Represents calls self.old
            → Represents (with_calls calls rank.0 (call_of call.entry ∷ [])) self.new) }
    {
        let WhatRef::Message(message) = call.what else {
            return Ok(());
        };
        match message {
            MessageCall::Send { to, tag, comm } | MessageCall::Isend { to, tag, comm } => {
                let key = Key {
                    from: rank,
                    to: *to,
                    comm: comm.copy()?,
                    tag: *tag,
                };
                send(self.alloc, &mut self.sends, key, number)
            }
            _ => receive(
                self.alloc,
                &mut self.receives,
                rank,
                number,
                call.request,
                message,
            ),
        }
    }

    /// Where the message of the call of this number of a rank comes from, if the call completes a receive.
    pub fn source(&self, rank: Rank, number: u32) -> MessageSource
        ensures { (calls : ℕ → List Call) → Represents calls self.now → result ≡ source_of calls rank.0 number }
    {
        let Some(receives) = self.receives.get(&rank) else {
            return MessageSource::NoReceive;
        };
        let Some(place) = receives.completed(number) else {
            return MessageSource::NoReceive;
        };
        let Some(comm) = receives.on(place) else {
            return MessageSource::Unknown;
        };
        let Some(key) = comm.key(place.index) else {
            return MessageSource::Unknown;
        };
        match comm.number(place.index) {
            Some(number) => self.sent(key, number),
            None => MessageSource::Unknown,
        }
    }

    /// Where the send of this number of the key is entered, if it is taken.
    fn sent(&self, key: &Key, number: u32) -> MessageSource
        ensures { result ≡ option_map_or (λ pos. From (record { rank = key.now.from; pos = pos })) (slice_get (kept_sends self.now.sends.entries key.now) number) Unknown }
    {
        match self.sends.get(key) {
            Some(entries) => source_in(key.from, entries.as_slice(), number),
            None => MessageSource::Unknown,
        }
    }
}

/// The point of a rank at the position of this number, if there is one.
fn source_in(rank: Rank, entries: &[u32], number: u32) -> MessageSource
    ensures { result ≡ option_map_or (λ pos. From (record { rank = rank; pos = pos })) (slice_get entries.now number) Unknown }
{
    match entries.get(number as usize) {
        Some(pos) => MessageSource::From(Point { rank, pos: *pos }),
        None => MessageSource::Unknown,
    }
}

/// Takes the send of this number, which has the key.
fn send(
    alloc: Global,
    sends: &mut IndexMap<Key, Sequence<u32>>,
    key: Key,
    number: u32,
) -> Result<(), Memory>
    ensures { OnOk result ((other : Key) → kept_sends sends.new.entries other
        ≡ (if same_key key other then kept_sends sends.old.entries key ++ 2 * number ∷ [] else kept_sends sends.old.entries other)) }
{
    if number as u64 >= FED {
        return Err(Memory);
    }
    if let Some(entries) = sends.get_mut(&key) {
        return entries.push(2 * number);
    }
    let mut entries = Sequence::new(alloc);
    entries.push(2 * number)?;
    sends.insert(key, entries)?;
    Ok(())
}

/// Takes a call of a rank that may post or complete a receive.
fn receive(
    alloc: Global,
    ranks: &mut IndexMap<Rank, RankReceives>,
    rank: Rank,
    number: u32,
    request: Option<u32>,
    message: &MessageCall,
) -> Result<(), Memory>
    ensures own { OnOk result ((own : RankMessages) (line : LineNo) → AreBefore number own.receives → IsOfRank rank.0 own.receives (kept_of ranks.old.entries rank.0)
        → IsOfRank rank.0 (with_what own number line request (Sync (Message message.now))).receives (kept_of ranks.new.entries rank.0)) }
    ensures others { OnOk result ((other : Rank) → (rank.0 == other.0) ≡ false → kept_of ranks.new.entries other.0 ≡ kept_of ranks.old.entries other.0) }
{
    if let Some(receives) = ranks.get_mut(&rank) {
        return receives.take(alloc, rank, number, request, message);
    }
    let mut receives = RankReceives::new(alloc);
    receives.take(alloc, rank, number, request, message)?;
    ranks.insert(rank, receives)?;
    Ok(())
}
