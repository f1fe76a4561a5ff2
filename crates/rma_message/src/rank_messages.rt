//! The messages of one rank.
ghost use Rattle.std.specs.Prelude.{◌≡◌, ◌≤◌, ◌++◌, [], ◌∷◌, length, Some, None, OnOk, OnErr, IfOk};
ghost use Rattle.rma_base.specs.Limits.{fed_limit};
ghost use Rattle.rma_call.specs.Call.{call_of};
ghost use Rattle.rma_message.specs.Receive.{posted, waited};
ghost use Rattle.rma_message.specs.RankMessages.{no_messages, sent_end, with_call, with_calls, messages_by};

use crate::end::End;
use crate::key::Key;
use crate::receive::{Completion, Receive, complete};
use indexmap::IndexMap;
use rma_base::limits::FED;
use rma_base::{LineNo, Memory, Name, Rank, Sequence};
use rma_call::{CallList, CallRef, Group, MessageCall, RankCalls, Received, WhatRef};
use std::alloc::Global;
use std::marker::Model;

/// The sends and the receives of a rank.
#[derive(Debug, Drop)]
pub struct RankMessages {
    /// The rank.
    rank: Rank,
    /// Its sends, in their order.
    sends: Sequence<End>,
    /// Its receives, in the order in which they are posted.
    receives: Vec<Receive>,
    /// By the number of a request the index of its receive, while that is not complete.
    pending: IndexMap<u32, usize>,
}

impl Model for RankMessages {
    ghost use Rattle.rma_message.specs.RankMessages.{RankMessages};

    ghost Value = { RankMessages };

    ghost use Rattle.rma_message.specs.inside.Open.{AreOpen};

    ghost view = { λ own. record { rank = own.rank; sends = own.sends; receives = own.receives.items } };

    ghost invariant = { λ own. AreOpen own.receives.items own.pending.entries };
}

impl RankMessages {
    /// No messages of the rank.
    pub fn new(alloc: Global, rank: Rank) -> RankMessages
        ensures { result ≡ no_messages rank }
    {
        RankMessages {
            rank,
            sends: Sequence::new(alloc),
            receives: Vec::new(alloc),
            pending: IndexMap::new(alloc),
        }
    }

    /// The messages of all calls of a rank.
    ///
    /// # Errors
    ///
    /// `Memory`, also where there are more calls than a run may have.
    pub fn of_calls(alloc: Global, own: &RankCalls) -> Result<RankMessages, Memory>
        ensures messages { IfOk result (λ messages. messages ≡ messages_by own.now) }
        ensures few { OnOk result (length own.now.calls ≤ fed_limit) }
    {
        let calls = own.calls();
        if calls.len() as u64 > FED {
            return Err(Memory);
        }
        let mut messages = RankMessages::new(alloc, own.rank());
        if calls.has(Group::Message) {
            messages.take_all(calls)?;
        }
        Ok(messages)
    }

    /// Takes all calls of a list, of which none is taken yet.
    fn take_all(&mut self, calls: &CallList) -> Result<(), Memory>
        requires { length calls.now.calls ≤ fed_limit }
        ensures { OnOk result (self.new ≡ with_calls self.old 0 calls.now.calls) }
    {
        for i in 0..calls.len() {
            self.take(i as u32, calls.get(i))?;
        }
        Ok(())
    }

    /// The rank.
    pub fn rank(&self) -> Rank
        ensures { result ≡ self.now.rank }
    {
        self.rank
    }

    /// Its sends, in their order.
    pub fn sends(&self) -> &[End]
        ensures { result.now ≡ self.now.sends }
    {
        self.sends.as_slice()
    }

    /// Its receives, in the order in which they are posted.
    pub fn receives(&self) -> &[Receive]
        ensures { result.now ≡ self.now.receives }
    {
        self.receives.as_slice()
    }

    /// Takes the call of this number of the rank. A call that sends, receives or completes no message changes nothing.
    ///
    /// # Errors
    ///
    /// `Memory`: the messages are as they were.
    pub fn take(&mut self, number: u32, call: CallRef<'_>) -> Result<(), Memory>
        ensures ok { OnOk result (self.new ≡ with_call self.old number (call_of call.entry)) }
        ensures err { OnErr result (self.new ≡ self.old) }
    {
        let WhatRef::Message(message) = call.what else {
            return Ok(());
        };
        match message {
            MessageCall::Send { to, tag, comm } | MessageCall::Isend { to, tag, comm } => {
                self.send(*to, *tag, comm, number, call.line)
            }
            MessageCall::Recv { from, tag, comm } => {
                let completion = Completion {
                    from: *from,
                    tag: *tag,
                    call: number,
                };
                self.receive(comm, call.line, completion)
            }
            MessageCall::Irecv { comm } => self.post(comm, call.line, call.request),
            MessageCall::Wait { received } => {
                self.wait(call.request, *received, number);
                Ok(())
            }
        }
    }

    /// Takes a send of this number.
    fn send(
        &mut self,
        to: Rank,
        tag: u32,
        comm: &Name,
        number: u32,
        line: LineNo,
    ) -> Result<(), Memory>
        ensures ok { OnOk result (self.new ≡ record self.old { sends = self.old.sends ++ sent_end self.old.rank number line to tag comm.now ∷ [] }) }
        ensures err { OnErr result (self.new ≡ self.old) }
    {
        let comm = comm.copy()?;
        let key = Key {
            from: self.rank,
            to,
            comm,
            tag,
        };
        self.sends.push(End {
            key,
            rank: self.rank,
            call: number,
            line,
        })
    }

    /// Takes a receive that its own call completes.
    fn receive(&mut self, comm: &Name, line: LineNo, completion: Completion) -> Result<(), Memory>
        ensures ok { OnOk result (self.new ≡ record self.old { receives = self.old.receives ++ posted comm.now line None (Some completion) ∷ [] }) }
        ensures err { OnErr result (self.new ≡ self.old) }
    {
        let comm = comm.copy()?;
        self.receives.push(Receive {
            comm,
            line,
            request: None,
            completion: Some(completion),
        })?;
        Ok(())
    }

    /// Takes a receive that a later call completes.
    fn post(&mut self, comm: &Name, line: LineNo, request: Option<u32>) -> Result<(), Memory>
        ensures ok { OnOk result (self.new ≡ record self.old { receives = self.old.receives ++ posted comm.now line request None ∷ [] }) }
        ensures err { OnErr result (self.new ≡ self.old) }
    {
        let comm = comm.copy()?;
        let index = self.receives.len();
        self.pending.reserve(1)?;
        self.receives.push(Receive {
            comm,
            line,
            request,
            completion: None,
        })?;
        if let Some(request) = request {
            self.pending.insert(request, index)?;
        }
        Ok(())
    }

    /// Takes a call that completes a request, where it got a message.
    fn wait(&mut self, request: Option<u32>, received: Option<Received>, number: u32)
        ensures { self.new ≡ record self.old { receives = waited request received number self.old.receives } }
    {
        let (Some(request), Some(received)) = (request, received) else {
            return;
        };
        if let Some(index) = self.pending.swap_remove(&request) {
            let completion = Completion {
                from: received.from,
                tag: received.tag,
                call: number,
            };
            complete(&mut self.receives, index, completion);
        }
    }
}
