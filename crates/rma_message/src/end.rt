//! The ends of messages.
ghost use Rattle.std.specs.Prelude.{◌≡◌, None, IfOk};

use crate::key::Key;
use rma_base::{LineNo, MatchReason, Memory, Rank};
use rma_call::MatchFault;

/// One end of a message: a send, or a receive with the source and the tag of the message that came.
#[derive(Debug, Drop)]
pub struct End {
    /// What it matches by.
    pub key: Key,
    /// The rank that makes it.
    pub rank: Rank,
    /// The number of the send, or of the call that completes the receive, among the calls of the rank from 0.
    pub call: u32,
    /// The line of the send, or of the call that posts the receive.
    pub line: LineNo,
}

impl End {
    /// The same end.
    pub(crate) fn copy(&self) -> Result<End, Memory>
        ensures { IfOk result (λ end. end ≡ self.now) }
    {
        let key = self.key.copy()?;
        Ok(End {
            key,
            rank: self.rank,
            call: self.call,
            line: self.line,
        })
    }

    /// The fault of this end, for a reason that names no other call.
    pub(crate) fn fault(&self, reason: MatchReason) -> MatchFault
        ensures { result ≡ record { reason = reason; rank = self.now.rank; line = self.now.line; other = None } }
    {
        MatchFault {
            reason,
            rank: self.rank,
            line: self.line,
            other: None,
        }
    }
}
