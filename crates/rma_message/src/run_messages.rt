//! The messages of a run, as they match.
ghost use Rattle.std.specs.Prelude.{◌≡◌, ◌++◌, IfOk, OnOk};
ghost use Rattle.rma_message.specs.Messages.{message_edges, message_faults};

use crate::edge::push_all;
use crate::matched::matched_edges;
use crate::messages::Messages;
use rma_base::{Memory, Sequence};
use rma_call::{MatchFault, RankCalls};
use rma_link::{Edge, Links};
use std::alloc::Global;
use std::marker::Model;

/// The messages of a run: the edges where each end has a match, and the ends where not.
#[derive(Drop)]
pub struct RunMessages {
    found: Found,
}

/// What is kept of messages.
#[derive(Drop)]
pub(crate) enum Found {
    /// The edges of messages of which each end has a match.
    Matched(Sequence<Edge>),
    /// The ends of messages.
    Ends(Messages),
}

impl Model for RunMessages {
    ghost use Rattle.rma_message.specs.RunMessages.{RunMessages};
    ghost use Rattle.rma_message.specs.inside.RunMessages.{found_messages, AreFound};

    ghost Value = { RunMessages };

    ghost view = { λ messages. found_messages messages.found };

    ghost invariant = { λ messages. AreFound messages.found };
}

impl RunMessages {
    /// The messages of all ranks, rank by rank in the order of the logs.
    ///
    /// # Errors
    ///
    /// `Memory`, also where a rank makes more calls than a run may have.
    pub fn of_calls(alloc: Global, ranks: &[RankCalls]) -> Result<RunMessages, Memory>
        ensures { IfOk result (λ messages. messages ≡ record { faults = message_faults ranks.now; edges = message_edges ranks.now }) }
    {
        let found = match matched_edges(alloc, ranks)? {
            Some(edges) => Found::Matched(edges),
            None => Found::Ends(Messages::of_calls(alloc, ranks)?),
        };
        Ok(RunMessages { found })
    }

    /// The ends that nothing matches: the sends, then the receives, each by rank and then in their order.
    ///
    /// # Errors
    ///
    /// `Memory` where there is none left.
    pub fn faults(&self, alloc: Global) -> Result<Sequence<MatchFault>, Memory>
        ensures { IfOk result (λ faults. faults ≡ self.now.faults) }
    {
        match &self.found {
            Found::Matched(_) => Ok(Sequence::new(alloc)),
            Found::Ends(messages) => messages.faults(alloc),
        }
    }

    /// Appends an edge for each message.
    ///
    /// # Errors
    ///
    /// `Memory`: some of the edges may be there.
    pub fn push_edges(&self, alloc: Global, links: &mut Links) -> Result<(), Memory>
        ensures { OnOk result (links.new ≡ record links.old { edges = links.old.edges ++ self.now.edges }) }
    {
        match &self.found {
            Found::Matched(edges) => push_all(edges.as_slice(), links),
            Found::Ends(messages) => messages.push_edges(alloc, links),
        }
    }
}
