//! Receives as they are posted.
ghost use Rattle.std.specs.Prelude.{◌≡◌, ◌<◌, length, IfOk};
ghost use Rattle.rma_message.specs.Receive.{complete_at, end_of};

use crate::end::End;
use crate::key::Key;
use rma_base::{LineNo, Memory, Name, Rank};

/// A receive of a rank, by the call that posts it.
#[derive(Debug, Drop)]
pub struct Receive {
    /// The communicator.
    pub comm: Name,
    /// The line of the call that posts it.
    pub line: LineNo,
    /// The number of its request, where it is nonblocking.
    pub request: Option<u32>,
    /// The message that came, once a call has completed the receive.
    pub completion: Option<Completion>,
}

/// What completed a receive.
#[derive(Clone, Copy, Debug, PartialEq, Eq)]
pub struct Completion {
    /// The rank that sent the message.
    pub from: Rank,
    /// The tag of the message.
    pub tag: u32,
    /// The number of the call that completed the receive, among the calls of the rank from 0.
    pub call: u32,
}

impl Receive {
    /// The end of a message that this receive of the rank is, once it is complete.
    pub(crate) fn end(&self, rank: Rank) -> Result<Option<End>, Memory>
        ensures { IfOk result (λ end. end ≡ end_of rank self.now) }
    {
        let Some(completion) = self.completion else {
            return Ok(None);
        };
        let comm = self.comm.copy()?;
        let key = Key {
            from: completion.from,
            to: rank,
            comm,
            tag: completion.tag,
        };
        Ok(Some(End {
            key,
            rank,
            call: completion.call,
            line: self.line,
        }))
    }
}

/// Completes the receive at the index.
pub(crate) fn complete(receives: &mut Vec<Receive>, index: usize, completion: Completion)
    requires { index < length receives.old.items }
    ensures { receives.new.items ≡ complete_at index completion receives.old.items }
{
    receives[index].completion = Some(completion);
}
