//! Messages of which each end has a match.
ghost use Rattle.std.specs.Prelude.{◌≡◌, ◌≤◌, ◌+◌, ◌<◌, [], true, List, Some, All, IfOk, IfSome, length, slice_get, take};
ghost use Rattle.std.specs.Map.{keys_of};
ghost use Rattle.rma_base.specs.Limits.{fed_limit};
ghost use Rattle.rma_call.specs.Call.{RankCalls};
ghost use Rattle.rma_call.specs.declared.what.What.{What};
ghost use Rattle.rma_message.specs.declared.key.Key.{Key};
ghost use Rattle.rma_message.specs.RankMessages.{messages_by};
ghost use Rattle.rma_message.specs.Messages.{message_edges, message_faults, messages_of};
ghost use Rattle.rma_message.specs.inside.Queue.{queue_of};
ghost use Rattle.rma_message.specs.inside.Matched.{AreMatched, ArePosted};

use crate::edge::message_edge;
use crate::posted::{Posted, posted_of};
use crate::queue::{Queues, pop_at};
use crate::sends::sends_of;
use rma_base::{Memory, Sequence};
use rma_call::RankCalls;
use rma_link::Edge;
use std::alloc::Global;

/// The edges of the messages of a run, where each end has a match. What calls do is looked up once for each rank, and then
/// a send is the number of its call in the queue of its key, which the receives take from in the order in which they are posted.
pub(crate) fn matched_edges(
    alloc: Global,
    ranks: &[RankCalls],
) -> Result<Option<Sequence<Edge>>, Memory>
    ensures { IfOk result (λ found. IfSome found (λ edges. (message_faults ranks.now ≡ []) × (edges ≡ message_edges ranks.now))) }
{
    let mut queues = sends_of(alloc, ranks)?;
    let mut edges = Sequence::new(alloc);
    for index in 0..ranks.len() {
        let Some(receives) = posted_of(alloc, &ranks[index], &queues)? else {
            return Ok(None);
        };
        if !push_matched(ranks, index, receives.as_slice(), &mut queues, &mut edges)? {
            return Ok(None);
        }
    }
    if are_empty(&queues) {
        Ok(Some(edges))
    } else {
        Ok(None)
    }
}

/// Appends the edges of the receives of the rank at an index, and answers whether each that is complete has a match.
fn push_matched(
    ranks: &[RankCalls],
    index: usize,
    receives: &[Posted],
    queues: &mut Queues,
    edges: &mut Sequence<Edge>,
) -> Result<bool, Memory>
    requires index { index < length ranks.now }
    requires few { All (λ own. length own.calls ≤ fed_limit) ranks.now }
    requires posted { (own : RankCalls) → slice_get ranks.now index ≡ Some own
        → (whats : List What) × ArePosted own.rank (keys_of queues.old.entries) whats (messages_by own).receives receives.now }
    requires matched { AreMatched (messages_of ranks.now).sends (messages_of (take index ranks.now)).receives edges.old queues.old.entries }
    ensures { IfOk result (λ all. all ≡ true → AreMatched (messages_of ranks.now).sends (messages_of (take (index + 1) ranks.now)).receives edges.new queues.new.entries) }
{
    let rank = ranks[index].rank();
    for own in receives {
        let Posted::Done { place, from, call } = *own else {
            continue;
        };
        let Some(send) = pop_at(queues, place) else {
            return Ok(false);
        };
        edges.push(message_edge(from, send, rank, call))?;
    }
    Ok(true)
}

/// Whether no call waits for its match.
fn are_empty(queues: &Queues) -> bool
    ensures { result ≡ true → (key : Key) → queue_of queues.now.entries key ≡ [] }
{
    for (_, calls) in queues.iter() {
        if calls.front().is_some() {
            return false;
        }
    }
    true
}
