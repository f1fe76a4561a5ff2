//! The first call of a round, and the calls that do not agree with it.
ghost use Rattle.std.specs.Prelude.{◌≡◌, IfOk};
ghost use Rattle.rma_call.specs.Call.{call_of};
ghost use Rattle.rma_agreement.specs.Round.{difference_reason, differs, own_of};

use crate::argument::Arguments;
use rma_base::{LineNo, MatchReason, Memory, Rank};
use rma_call::{CallRef, MatchFault};
use rma_round::Kind;

/// A call of a round, as it is kept where it is the first, and as it is compared with the first.
#[derive(Drop)]
pub struct First {
    /// The rank that makes it.
    pub rank: Rank,
    /// Its line in the log of that rank.
    pub line: LineNo,
    /// What the others of the round have to agree on with it.
    pub arguments: Arguments,
}

impl First {
    /// A call of a rank, before which so many barriers and creations of windows stand on its communicator.
    ///
    /// # Errors
    ///
    /// `Memory` where memory ran out.
    pub fn new(rank: Rank, place: usize, call: CallRef<'_>) -> Result<First, Memory>
        ensures { IfOk result (λ own. own ≡ own_of rank place (call_of call.entry)) }
    {
        let arguments = Arguments::of(call.what, place)?;
        Ok(First {
            rank,
            line: call.line,
            arguments,
        })
    }

    /// The fault of a call of the kind, if it does not agree with this one.
    pub fn difference(&self, kind: Kind, own: &First) -> Option<MatchFault>
        ensures { result ≡ differs kind self.now own.now }
    {
        if own.arguments.agree_with(&self.arguments) {
            return None;
        }
        Some(MatchFault {
            reason: difference_reason(kind),
            rank: own.rank,
            line: own.line,
            other: Some((self.rank, self.line)),
        })
    }
}

/// The reason for which a call of the kind is reported that does not agree with the first of its round.
fn difference_reason(kind: Kind) -> MatchReason
    ensures { result ≡ difference_reason kind }
{
    match kind {
        Kind::Collective | Kind::Free => MatchReason::CollectiveDiffers,
        Kind::Fence => MatchReason::AssertDiffers,
        Kind::Moving => MatchReason::DataDiffers,
    }
}
