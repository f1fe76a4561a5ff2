//! The sends of a run, by key.
ghost use Rattle.std.specs.Prelude.{◌≡◌, ◌≤◌, ◌++◌, [], List, length, slice_get, Some, All, IfOk, OnOk};
ghost use Rattle.std.specs.Map.{keys_of};
ghost use Rattle.rma_base.specs.Limits.{fed_limit};
ghost use Rattle.rma_base.specs.declared.rank.Rank.{Rank};
ghost use Rattle.rma_call.specs.Call.{what_of};
ghost use Rattle.rma_message.specs.declared.key.Key.{Key};
ghost use Rattle.rma_message.specs.declared.end.End.{End};
ghost use Rattle.rma_message.specs.RankMessages.{no_messages, with_calls, messages_by};
ghost use Rattle.rma_message.specs.Messages.{messages_of};
ghost use Rattle.rma_message.specs.inside.Queue.{AreLeft, queue_of};
ghost use Rattle.rma_message.specs.inside.Matched.{AreSendPlaces, IsSendPlace, StayThere};

use crate::key::Key;
use crate::queue::{Queues, push_at};
use indexmap::IndexMap;
use rma_base::limits::FED;
use rma_base::{Memory, Rank};
use rma_call::{CallList, Group, MessageCall, RankCalls, WhatRef};
use std::alloc::Global;
use std::collections::VecDeque;

/// The sends of a run, by key, rank by rank in the order of the logs.
pub(crate) fn sends_of(alloc: Global, ranks: &[RankCalls]) -> Result<Queues, Memory>
    ensures sends { IfOk result (λ queues. AreLeft (messages_of ranks.now).sends [] queues.entries) }
    ensures few { OnOk result (All (λ own. length own.calls ≤ fed_limit) ranks.now) }
{
    let mut queues = IndexMap::new(alloc);
    for own in ranks {
        take_rank(alloc, own, &mut queues)?;
    }
    Ok(queues)
}

/// Appends the sends of one more rank.
fn take_rank(alloc: Global, own: &RankCalls, queues: &mut Queues) -> Result<(), Memory>
    ensures sends { OnOk result ((sends : List End) → AreLeft sends [] queues.old.entries
        → AreLeft (sends ++ (messages_by own.now).sends) [] queues.new.entries) }
    ensures few { OnOk result (length own.now.calls ≤ fed_limit) }
{
    let calls = own.calls();
    if calls.len() as u64 > FED {
        return Err(Memory);
    }
    if !calls.has(Group::Message) {
        return Ok(());
    }
    let places = places_of(alloc, own.rank(), calls, queues)?;
    take_all(calls, places.as_slice(), queues)?;
    Ok(())
}

/// The places of the keys of sends, by the numbers of what calls do.
fn places_of(
    alloc: Global,
    rank: Rank,
    calls: &CallList,
    queues: &mut Queues,
) -> Result<Vec<Option<usize>>, Memory>
    ensures len { IfOk result (λ places. length places.items ≡ length calls.now.whats) }
    ensures places { IfOk result (λ places. AreSendPlaces rank (keys_of queues.new.entries) calls.now.whats places.items) }
    ensures queues { OnOk result ((key : Key) → queue_of queues.new.entries key ≡ queue_of queues.old.entries key) }
{
    let mut places = Vec::new(alloc);
    for number in 0..calls.whats() {
        let place = send_place(alloc, rank, calls.what(number), queues)?;
        places.push(place)?;
    }
    Ok(places)
}

/// The place of the key of sends of a rank that do this.
fn send_place(
    alloc: Global,
    rank: Rank,
    what: WhatRef<'_>,
    queues: &mut Queues,
) -> Result<Option<usize>, Memory>
    ensures place { IfOk result (λ place. IsSendPlace rank (keys_of queues.new.entries) (what_of what.entry) place) }
    ensures keys { OnOk result (StayThere (keys_of queues.old.entries) (keys_of queues.new.entries)) }
    ensures queues { OnOk result ((key : Key) → queue_of queues.new.entries key ≡ queue_of queues.old.entries key) }
{
    let WhatRef::Message(message) = what else {
        return Ok(None);
    };
    match message {
        MessageCall::Send { to, tag, comm } | MessageCall::Isend { to, tag, comm } => {
            let comm = comm.copy()?;
            let key = Key {
                from: rank,
                to: *to,
                comm,
                tag: *tag,
            };
            let place = place_of(alloc, key, queues)?;
            Ok(Some(place))
        }
        MessageCall::Recv { .. } | MessageCall::Irecv { .. } | MessageCall::Wait { .. } => Ok(None),
    }
}

/// The place of a key, which gets an empty queue if it has none.
fn place_of(alloc: Global, key: Key, queues: &mut Queues) -> Result<usize, Memory>
    ensures place { IfOk result (λ place. slice_get (keys_of queues.new.entries) place ≡ Some key) }
    ensures keys { OnOk result (StayThere (keys_of queues.old.entries) (keys_of queues.new.entries)) }
    ensures queues { OnOk result ((other : Key) → queue_of queues.new.entries other ≡ queue_of queues.old.entries other) }
{
    if let Some(place) = queues.get_index_of(&key) {
        return Ok(place);
    }
    let place = queues.len();
    queues.insert(key, VecDeque::new(alloc))?;
    Ok(place)
}

/// Appends the sends among the calls of a rank.
fn take_all(calls: &CallList, places: &[Option<usize>], queues: &mut Queues) -> Result<(), Memory>
    requires few { length calls.now.calls ≤ fed_limit }
    requires each { length places.now ≡ length calls.now.whats }
    ensures { OnOk result ((rank : Rank) (sends : List End) → AreSendPlaces rank (keys_of queues.old.entries) calls.now.whats places.now → AreLeft sends [] queues.old.entries
        → AreLeft (sends ++ (with_calls (no_messages rank) 0 calls.now.calls).sends) [] queues.new.entries) }
{
    for i in 0..calls.len() {
        push_at(queues, places[calls.what_number(i) as usize], i as u32)?;
    }
    Ok(())
}
