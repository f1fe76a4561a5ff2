//! Ends of messages that nothing matches.
ghost use Rattle.std.specs.Prelude.{◌≡◌, ◌++◌, OnOk};
ghost use Rattle.rma_message.specs.Matching.{unmatched};

use crate::end::End;
use crate::queue::{pop, queues_of};
use rma_base::{MatchReason, Memory, Sequence};
use rma_call::MatchFault;
use std::alloc::Global;

/// Appends the faults of these ends that none of the others matches.
pub(crate) fn push_unmatched(
    alloc: Global,
    reason: MatchReason,
    others: &[End],
    own: &[End],
    faults: &mut Sequence<MatchFault>,
) -> Result<(), Memory>
    ensures { OnOk result (faults.new ≡ faults.old ++ unmatched reason others.now own.now) }
{
    let mut queues = queues_of(alloc, others)?;
    for end in own {
        if pop(&mut queues, &end.key).is_none() {
            faults.push(end.fault(reason))?;
        }
    }
    Ok(())
}
