//! Edges of messages.
ghost use Rattle.std.specs.Prelude.{◌≡◌, ◌<◌, ◌++◌, All, OnOk};
ghost use Rattle.rma_base.specs.Limits.{fed_limit};
ghost use Rattle.rma_link.specs.Point.{entry, return_of};
ghost use Rattle.rma_message.specs.Matching.{IsNumbered, edge_between, edges_of};

use crate::end::End;
use crate::queue::{pop, queues_of};
use rma_base::{Memory, Point, Rank};
use rma_link::{Edge, Links};
use std::alloc::Global;

/// Appends the edges of the messages that these ends make.
pub(crate) fn push_edges(
    alloc: Global,
    sends: &[End],
    receives: &[End],
    links: &mut Links,
) -> Result<(), Memory>
    requires sends { All IsNumbered sends.now }
    requires receives { All IsNumbered receives.now }
    ensures { OnOk result (links.new ≡ record links.old { edges = links.old.edges ++ edges_of sends.now receives.now }) }
{
    let mut queues = queues_of(alloc, sends)?;
    for end in receives {
        if let Some(call) = pop(&mut queues, &end.key) {
            links.push_edge(edge(call, end))?;
        }
    }
    Ok(())
}

/// Appends these edges.
pub(crate) fn push_all(edges: &[Edge], links: &mut Links) -> Result<(), Memory>
    ensures { OnOk result (links.new ≡ record links.old { edges = links.old.edges ++ edges.now }) }
{
    for edge in edges {
        links.push_edge(*edge)?;
    }
    Ok(())
}

/// The edge from the send of this number to the receive.
fn edge(send: u32, receive: &End) -> Edge
    requires send { send < fed_limit }
    requires receive { receive.now.call < fed_limit }
    ensures { result ≡ edge_between send receive.now }
{
    message_edge(receive.key.from, send, receive.rank, receive.call)
}

/// The edge from the send of a rank to the return of the call of a rank that completes its receive.
pub(crate) fn message_edge(from: Rank, send: u32, to: Rank, receive: u32) -> Edge
    requires send { send < fed_limit }
    requires receive { receive < fed_limit }
    ensures { result ≡ record { from = entry from send; to = return_of to receive } }
{
    Edge {
        from: Point {
            rank: from,
            pos: 2 * send,
        },
        to: Point {
            rank: to,
            pos: 2 * receive + 1,
        },
    }
}
