//! The receives of a rank in the order in which they are posted, with the places of their keys.
ghost use Rattle.std.specs.Prelude.{◌≡◌, ◌≤◌, ◌<◌, ◌++◌, ◌∷◌, [], true, ℕ, List, Option, length, slice_get, Some, None, IfOk, IfSome, OnOk, set, nat_eq, ◌^◌, if◌then◌else◌};
ghost use Rattle.std.specs.Map.{keys_of};
ghost use Rattle.rma_base.specs.Limits.{fed_limit};
ghost use Rattle.rma_base.specs.declared.rank.Rank.{Rank};
ghost use Rattle.rma_base.specs.declared.line.LineNo.{LineNo};
ghost use Rattle.rma_call.specs.Call.{Call, what_of};
ghost use Rattle.rma_call.specs.declared.what.What.{What};
ghost use Rattle.rma_call.specs.declared.what.What.TheVariants.{Sync};
ghost use Rattle.rma_call.specs.declared.what.SyncCall.TheVariants.{Message};
ghost use Rattle.rma_call.specs.declared.message.MessageCall.TheVariants.{Irecv, Wait};
ghost use Rattle.rma_message.specs.declared.key.Key.{Key};
ghost use Rattle.rma_message.specs.declared.end.End.{End};
ghost use Rattle.rma_message.specs.declared.receive.Receive.{Receive};
ghost use Rattle.rma_message.specs.declared.posted.Posted.TheVariants.{Open};
ghost use Rattle.rma_message.specs.Receive.{posted, waited};
ghost use Rattle.rma_message.specs.RankMessages.{RankMessages, no_messages, with_call, with_calls, messages_by};
ghost use Rattle.rma_message.specs.inside.Matched.{AreKept, AreKnown, ArePosted, AreSteps, IsPlaceFor, IsStep, index_at};

use crate::key::Key;
use crate::queue::Queues;
use rma_base::{Memory, Name, Rank};
use rma_call::{CallList, Group, MessageCall, RankCalls, Received, WhatRef};
use std::alloc::Global;

/// A receive of a rank.
#[derive(Clone, Copy)]
pub(crate) enum Posted {
    /// One that is not complete, with the number of what the call does that posts it.
    Open { what: u32 },
    /// One that is complete, with the place of its key, the rank that sent the message, and the call that completed it.
    Done { place: usize, from: Rank, call: u32 },
}

/// What calls come to that do the same.
#[derive(Clone, Copy)]
enum Step {
    /// They receive nothing.
    Nothing,
    /// They receive what nobody sends.
    Unsent,
    /// They receive a message, with the place of its key and the rank that sent it.
    Receive { place: usize, from: Rank },
    /// They post a receive.
    Post,
    /// They complete a receive of this message.
    Wait { received: Received },
}

/// Where the key stands of messages whose receives calls of one number post.
#[derive(Clone, Copy)]
struct Known {
    /// The number of what the calls do that post the receives.
    post: u32,
    /// The place of the key.
    place: usize,
}

/// The receives of a rank, as its calls come.
#[derive(Drop)]
struct PostedReceives {
    /// In the order in which they are posted.
    receives: Vec<Posted>,
    /// By the number of a request the index of its receive, while that is not complete.
    pending: Vec<Option<usize>>,
    /// By the number of what calls do that complete receives, where the key stands that was looked up last.
    known: Vec<Option<Known>>,
}

/// The receives of a rank, if the sends have a key for each that is complete.
pub(crate) fn posted_of(
    alloc: Global,
    own: &RankCalls,
    queues: &Queues,
) -> Result<Option<Vec<Posted>>, Memory>
    requires { length own.now.calls ≤ fed_limit }
    ensures { IfOk result (λ found. IfSome found (λ receives. (whats : List What)
        × ArePosted own.now.rank (keys_of queues.now.entries) whats (messages_by own.now).receives receives.items)) }
{
    let calls = own.calls();
    if !calls.has(Group::Message) {
        return Ok(Some(Vec::new(alloc)));
    }
    let steps = steps_of(alloc, own.rank(), calls, queues)?;
    let mut kept = PostedReceives::new(alloc, steps.len())?;
    if kept.take_all(own.rank(), calls, steps.as_slice(), queues)? {
        Ok(Some(kept.receives))
    } else {
        Ok(None)
    }
}

/// The steps of calls of a rank, by the numbers of what they do.
fn steps_of(
    alloc: Global,
    rank: Rank,
    calls: &CallList,
    queues: &Queues,
) -> Result<Vec<Step>, Memory>
    ensures len { IfOk result (λ steps. length steps.items ≡ length calls.now.whats) }
    ensures steps { IfOk result (λ steps. AreSteps rank (keys_of queues.now.entries) calls.now.whats steps.items) }
{
    let mut steps = Vec::new(alloc);
    for number in 0..calls.whats() {
        let step = step_of(rank, calls.what(number), queues)?;
        steps.push(step)?;
    }
    Ok(steps)
}

/// The step of calls of a rank that do this.
fn step_of(rank: Rank, what: WhatRef<'_>, queues: &Queues) -> Result<Step, Memory>
    ensures { IfOk result (λ step. IsStep rank (keys_of queues.now.entries) (what_of what.entry) step) }
{
    let WhatRef::Message(message) = what else {
        return Ok(Step::Nothing);
    };
    match message {
        MessageCall::Recv { from, tag, comm } => match place_of(rank, *from, *tag, comm, queues)? {
            Some(place) => Ok(Step::Receive { place, from: *from }),
            None => Ok(Step::Unsent),
        },
        MessageCall::Irecv { .. } => Ok(Step::Post),
        MessageCall::Wait {
            received: Some(received),
        } => Ok(Step::Wait {
            received: *received,
        }),
        MessageCall::Send { .. } | MessageCall::Isend { .. } | MessageCall::Wait { .. } => {
            Ok(Step::Nothing)
        }
    }
}

/// The place of the key of a message to a rank, if it is sent.
fn place_of(
    rank: Rank,
    from: Rank,
    tag: u32,
    comm: &Name,
    queues: &Queues,
) -> Result<Option<usize>, Memory>
    ensures { IfOk result (λ found. IfSome found (λ place. slice_get (keys_of queues.now.entries) place
        ≡ Some (record { from = from; to = rank; comm = comm.now; tag = tag }))) }
{
    let comm = comm.copy()?;
    let key = Key {
        from,
        to: rank,
        comm,
        tag,
    };
    Ok(queues.get_index_of(&key))
}

impl PostedReceives {
    /// None, of calls that have so many numbers of what they do.
    fn new(alloc: Global, whats: usize) -> Result<PostedReceives, Memory>
        ensures { IfOk result (λ own. (rank : Rank) (keys : List Key) (whats : List What) → AreKept rank keys whats [] own) }
    {
        let mut known = Vec::new(alloc);
        known.resize(whats, None)?;
        Ok(PostedReceives {
            receives: Vec::new(alloc),
            pending: Vec::new(alloc),
            known,
        })
    }

    /// Takes all calls of a rank, and answers whether each message that they receive is sent.
    fn take_all(
        &mut self,
        rank: Rank,
        calls: &CallList,
        steps: &[Step],
        queues: &Queues,
    ) -> Result<bool, Memory>
        requires few { length calls.now.calls ≤ fed_limit }
        requires each { length steps.now ≡ length calls.now.whats }
        requires steps { AreSteps rank (keys_of queues.now.entries) calls.now.whats steps.now }
        requires none { AreKept rank (keys_of queues.now.entries) calls.now.whats [] self.old }
        ensures { IfOk result (λ sent. sent ≡ true → AreKept rank (keys_of queues.now.entries) calls.now.whats (with_calls (no_messages rank) 0 calls.now.calls).receives self.new) }
    {
        for i in 0..calls.len() {
            let step = steps[calls.what_number(i) as usize];
            if !self.take(rank, calls, i, step, queues)? {
                return Ok(false);
            }
        }
        Ok(true)
    }

    /// Takes a call of a rank, and answers whether the message is sent if it receives one.
    fn take(
        &mut self,
        rank: Rank,
        calls: &CallList,
        i: usize,
        step: Step,
        queues: &Queues,
    ) -> Result<bool, Memory>
        requires few { length calls.now.calls ≤ fed_limit }
        requires index { i < length calls.now.calls }
        requires kept { (receives : List Receive) × AreKept rank (keys_of queues.now.entries) calls.now.whats receives self.old }
        requires step { (call : Call) → slice_get calls.now.calls i ≡ Some call → IsStep rank (keys_of queues.now.entries) call.what step }
        ensures { IfOk result (λ sent. sent ≡ true → (sends : List End) (receives : List Receive) (call : Call) → slice_get calls.now.calls i ≡ Some call
            → AreKept rank (keys_of queues.now.entries) calls.now.whats receives self.old
            → AreKept rank (keys_of queues.now.entries) calls.now.whats (with_call (record { rank = rank; sends = sends; receives = receives }) i call).receives self.new) }
    {
        match step {
            Step::Nothing => Ok(true),
            Step::Unsent => Ok(false),
            Step::Receive { place, from } => {
                let call = i as u32;
                self.receives.push(Posted::Done { place, from, call })?;
                Ok(true)
            }
            Step::Post => self.post(calls.what_number(i), calls.get(i).request, calls.len()),
            Step::Wait { received } => match calls.get(i).request {
                Some(request) => self.wait(rank, calls, request, received, i, queues),
                None => Ok(true),
            },
        }
    }

    /// Takes a receive that a later call completes, and answers whether there are fewer requests than the limit.
    fn post(&mut self, what: u32, request: Option<u32>, limit: usize) -> Result<bool, Memory>
        ensures { IfOk result (λ few. few ≡ true → (rank : Rank) (keys : List Key) (whats : List What) (receives : List Receive) (comm : List ℕ) (line : LineNo)
            → slice_get whats what ≡ Some (Sync (Message (Irecv comm))) → AreKept rank keys whats receives self.old
            → AreKept rank keys whats (receives ++ posted comm line request None ∷ []) self.new) }
    {
        let index = self.receives.len();
        self.receives.push(Posted::Open { what })?;
        let Some(request) = request else {
            return Ok(true);
        };
        let place = request as usize;
        if place >= limit {
            return Ok(false);
        }
        reach(&mut self.pending, place)?;
        put_index(&mut self.pending, place, Some(index));
        Ok(true)
    }

    /// Completes the receive of a request, and answers whether the message is sent if there is such a receive.
    fn wait(
        &mut self,
        rank: Rank,
        calls: &CallList,
        request: u32,
        received: Received,
        i: usize,
        queues: &Queues,
    ) -> Result<bool, Memory>
        requires few { length calls.now.calls ≤ fed_limit }
        requires index { i < length calls.now.calls }
        requires kept { (receives : List Receive) × AreKept rank (keys_of queues.now.entries) calls.now.whats receives self.old }
        requires wait { (call : Call) → slice_get calls.now.calls i ≡ Some call → call.what ≡ Sync (Message (Wait (Some received))) }
        ensures { IfOk result (λ sent. sent ≡ true → (receives : List Receive) → AreKept rank (keys_of queues.now.entries) calls.now.whats receives self.old
            → AreKept rank (keys_of queues.now.entries) calls.now.whats (waited (Some request) (Some received) i receives) self.new) }
    {
        let place = request as usize;
        let Some(index) = index_at(self.pending.as_slice(), place) else {
            return Ok(true);
        };
        put_index(&mut self.pending, place, None);
        let Some(post) = open_at(self.receives.as_slice(), index) else {
            return Ok(false);
        };
        let wait = calls.what_number(i);
        let known = &mut self.known;
        let Some(place) = place_for(rank, calls, post, wait, received, queues, known)? else {
            return Ok(false);
        };
        let from = received.from;
        let call = i as u32;
        put(
            &mut self.receives,
            index,
            Posted::Done { place, from, call },
        );
        Ok(true)
    }
}

/// The number of what the call does that posts the receive at an index, where that is not complete.
fn open_at(receives: &[Posted], index: usize) -> Option<u32>
    ensures { IfSome result (λ post. slice_get receives.now index ≡ Some (Open post)) }
{
    match receives.get(index).copied() {
        Some(Posted::Open { what }) => Some(what),
        _ => None,
    }
}

/// The index at a place, if there is one.
fn index_at(indexes: &[Option<usize>], place: usize) -> Option<usize>
    ensures { result ≡ index_at indexes.now place }
{
    indexes.get(place).copied()?
}

/// Puts an index at a place.
fn put_index(indexes: &mut Vec<Option<usize>>, place: usize, index: Option<usize>)
    requires { place < length indexes.old.items }
    ensures { (other : ℕ) → index_at indexes.new.items other ≡ (if nat_eq place other then index else index_at indexes.old.items other) }
{
    indexes[place] = index;
}

/// Makes a place where there is none.
fn reach(indexes: &mut Vec<Option<usize>>, place: usize) -> Result<(), Memory>
    requires { place < 2 ^ 32 }
    ensures reached { OnOk result (place < length indexes.new.items) }
    ensures same { OnOk result ((other : ℕ) → index_at indexes.new.items other ≡ index_at indexes.old.items other) }
{
    for _next in indexes.len()..place + 1 {
        indexes.push(None)?;
    }
    Ok(())
}

/// Puts a receive at an index, if there is one.
fn put(receives: &mut Vec<Posted>, index: usize, own: Posted)
    ensures { receives.new.items ≡ set receives.old.items index own }
{
    if index < receives.len() {
        receives[index] = own;
    }
}

/// The place of the key of a message, where calls of these numbers post and complete its receive, if it is sent.
fn place_for(
    rank: Rank,
    calls: &CallList,
    post: u32,
    wait: u32,
    received: Received,
    queues: &Queues,
    known: &mut Vec<Option<Known>>,
) -> Result<Option<usize>, Memory>
    requires post { post < length calls.now.whats }
    requires wait { slice_get calls.now.whats wait ≡ Some (Sync (Message (Wait (Some received)))) }
    requires known { AreKnown rank (keys_of queues.now.entries) calls.now.whats known.old.items }
    ensures place { IfOk result (λ found. IfSome found (IsPlaceFor rank (keys_of queues.now.entries) calls.now.whats post received)) }
    ensures known { OnOk result (AreKnown rank (keys_of queues.now.entries) calls.now.whats known.new.items) }
{
    if let Some(place) = known_place(known.as_slice(), post, wait) {
        return Ok(Some(place));
    }
    let found = find_place(rank, calls, post, received, queues)?;
    if let Some(place) = found {
        put_known(known, wait, Known { post, place });
    }
    Ok(found)
}

/// The place of the key of a message, where calls of this number post its receive, if it is sent.
fn find_place(
    rank: Rank,
    calls: &CallList,
    post: u32,
    received: Received,
    queues: &Queues,
) -> Result<Option<usize>, Memory>
    requires { post < length calls.now.whats }
    ensures { IfOk result (λ found. IfSome found (IsPlaceFor rank (keys_of queues.now.entries) calls.now.whats post received)) }
{
    let WhatRef::Message(MessageCall::Irecv { comm }) = calls.what(post) else {
        return Ok(None);
    };
    place_of(rank, received.from, received.tag, comm, queues)
}

/// The place that is known for calls of these numbers.
fn known_place(known: &[Option<Known>], post: u32, wait: u32) -> Option<usize>
    ensures { IfSome result (λ place. slice_get known.now wait ≡ Some (Some (record { post = post; place = place }))) }
{
    let own = known.get(wait as usize).copied()??;
    if own.post == post {
        Some(own.place)
    } else {
        None
    }
}

/// Puts what is known for calls that complete receives, if they have a number.
fn put_known(known: &mut Vec<Option<Known>>, wait: u32, own: Known)
    ensures { known.new.items ≡ set known.old.items wait (Some own) }
{
    let index = wait as usize;
    if index < known.len() {
        known[index] = Some(own);
    }
}
