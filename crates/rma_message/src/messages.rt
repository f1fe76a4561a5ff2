//! The messages of a run.
ghost use Rattle.std.specs.Prelude.{◌≡◌, ◌≤◌, ◌++◌, length, All, IfOk, OnOk};
ghost use Rattle.std.specs.List.{filter_map};
ghost use Rattle.rma_base.specs.Limits.{fed_limit};
ghost use Rattle.rma_message.specs.Receive.{end_of};
ghost use Rattle.rma_message.specs.Messages.{AreNumbered, edges_in, faults_in, messages_of, no_messages, with_rank};

use crate::edge::push_edges;
use crate::end::End;
use crate::fault::push_unmatched;
use crate::rank_messages::RankMessages;
use crate::receive::Receive;
use rma_base::{MatchReason, Memory, Rank, Sequence};
use rma_call::{MatchFault, RankCalls};
use rma_link::Links;
use std::alloc::Global;
use std::marker::Model;

/// The ends of the messages of a run.
#[derive(Debug, Drop)]
pub struct Messages {
    /// The sends, by rank and then in their order.
    sends: Sequence<End>,
    /// The receives that are complete, by rank and then in the order in which they are posted.
    receives: Sequence<End>,
}

impl Model for Messages {
    ghost use Rattle.rma_message.specs.Messages.{Messages};

    ghost Value = { Messages };

    ghost view = { λ all. record { sends = all.sends; receives = all.receives } };
}

impl Messages {
    /// No messages.
    pub fn new(alloc: Global) -> Messages
        ensures { result ≡ no_messages }
    {
        Messages {
            sends: Sequence::new(alloc),
            receives: Sequence::new(alloc),
        }
    }

    /// The messages of all ranks, rank by rank in the order of the logs.
    ///
    /// # Errors
    ///
    /// `Memory`, also where a rank makes more calls than a run may have.
    pub fn of_calls(alloc: Global, ranks: &[RankCalls]) -> Result<Messages, Memory>
        ensures messages { IfOk result (λ messages. messages ≡ messages_of ranks.now) }
        ensures numbered { IfOk result AreNumbered }
    {
        let mut messages = Messages::new(alloc);
        for own in ranks {
            let taken = RankMessages::of_calls(alloc, own)?;
            messages.add(&taken)?;
        }
        Ok(messages)
    }

    /// The sends, by rank and then in their order.
    pub fn sends(&self) -> &[End]
        ensures { result.now ≡ self.now.sends }
    {
        self.sends.as_slice()
    }

    /// The receives that are complete, by rank and then in the order in which they are posted.
    pub fn receives(&self) -> &[End]
        ensures { result.now ≡ self.now.receives }
    {
        self.receives.as_slice()
    }

    /// Adds the messages of one more rank.
    ///
    /// # Errors
    ///
    /// `Memory`: some of its messages may be added.
    pub fn add(&mut self, own: &RankMessages) -> Result<(), Memory>
        ensures { OnOk result (self.new ≡ with_rank self.old own.now) }
    {
        push_sends(&mut self.sends, own.sends())?;
        push_receives(&mut self.receives, own.rank(), own.receives())
    }

    /// The ends that nothing matches: the sends, then the receives, each by rank and then in their order.
    ///
    /// # Errors
    ///
    /// `Memory` where there is none left.
    pub fn faults(&self, alloc: Global) -> Result<Sequence<MatchFault>, Memory>
        ensures { IfOk result (λ faults. faults ≡ faults_in self.now) }
    {
        let sends = self.sends.as_slice();
        let receives = self.receives.as_slice();
        let mut faults = Sequence::new(alloc);
        push_unmatched(
            alloc,
            MatchReason::SendUnreceived,
            receives,
            sends,
            &mut faults,
        )?;
        push_unmatched(
            alloc,
            MatchReason::ReceiveUnsent,
            sends,
            receives,
            &mut faults,
        )?;
        Ok(faults)
    }

    /// Appends an edge for each message.
    ///
    /// # Errors
    ///
    /// `Memory`: some of the edges may be there.
    pub fn push_edges(&self, alloc: Global, links: &mut Links) -> Result<(), Memory>
        requires { AreNumbered self.now }
        ensures { OnOk result (links.new ≡ record links.old { edges = links.old.edges ++ edges_in self.now }) }
    {
        push_edges(
            alloc,
            self.sends.as_slice(),
            self.receives.as_slice(),
            links,
        )
    }
}

/// Appends sends.
fn push_sends(sends: &mut Sequence<End>, more: &[End]) -> Result<(), Memory>
    ensures { OnOk result (sends.new ≡ sends.old ++ more.now) }
{
    for send in more {
        sends.push(send.copy()?)?;
    }
    Ok(())
}

/// Appends the receives of a rank that are complete.
fn push_receives(receives: &mut Sequence<End>, rank: Rank, more: &[Receive]) -> Result<(), Memory>
    ensures { OnOk result (receives.new ≡ receives.old ++ filter_map (end_of rank) more.now) }
{
    for receive in more {
        if let Some(end) = receive.end(rank)? {
            receives.push(end)?;
        }
    }
    Ok(())
}
