//! Judging messages that make a request, and waits for requests.
ghost use Rattle.std.specs.Prelude.{◌≡◌, ◌+◌, ◌<◌, ◌^◌, ◌||◌, List, not, is_some, is_none, option_map, IfOk, IfSome, None, Some, false, if◌then◌else◌};
ghost use Rattle.std.specs.Map.{lookup};
ghost use Rattle.std.specs.Option.{option_map_or};
ghost use Rattle.rma_form.specs.declared.event.Event.{Event};
ghost use Rattle.rma_judge.specs.Judging.{differ, is_far};
ghost use Rattle.rma_judge.specs.Names.{is_same, request_number, world};
ghost use Rattle.rma_judge.specs.Naming.{attributes_of};
ghost use Rattle.rma_judge.specs.inside.BookState.{IsJudged, Represents, number_in, reason_in};
ghost use Rattle.rma_judge.specs.inside.CallEvent.{IsCall};
ghost use Rattle.rma_judge.specs.inside.Naming.{making, waiting};

use crate::book::{Book, Judged};
use crate::naming::NewRequest;
use rma_base::{FormReason, Memory, Name, Rank};

impl Book {
    /// Judges a message that makes a request, and takes it where it is good.
    pub(crate) fn judge_making(&mut self, new: &NewRequest<'_>) -> Result<Judged, Memory>
        ensures judged { IfOk result (λ judged. (event : Event) → making new.now ≡ attributes_of event → IsCall self.old.types event
            → IsJudged self.old self.new event (reason_in judged)) }
        ensures number { IfOk result (λ judged. reason_in judged ≡ None → (events : List Event) → Represents self.old events
            → number_in judged ≡ request_number events (making new.now)) }
        ensures fits { IfOk result (λ judged. IfSome (number_in judged) (λ number. number + 1 < 2 ^ 32)) }
    {
        match self.later_reason().or(self.making_reason(new)) {
            Some(reason) => Ok(Judged::Bad(reason)),
            None => {
                let request = self.requests.make(Some((new.name, new.receives)))?;
                Ok(Judged::Good { request })
            }
        }
    }

    /// Judges the wait for a request, with the rank from which a message came, if one came, and takes it where it is good.
    pub(crate) fn judge_waiting(
        &mut self,
        request: &Name,
        from: Option<Rank>,
    ) -> Result<Judged, Memory>
        ensures judged { IfOk result (λ judged. (event : Event) → waiting request.now from ≡ attributes_of event → IsCall self.old.types event → IsJudged self.old self.new event (reason_in judged)) }
        ensures number { IfOk result (λ judged. reason_in judged ≡ None → (events : List Event) → Represents self.old events → number_in judged ≡ request_number events (waiting request.now from)) }
        ensures fits { IfOk result (λ judged. IfSome (number_in judged) (λ number. number + 1 < 2 ^ 32)) }
    {
        match self.later_reason().or(self.waiting_reason(request, from)) {
            Some(reason) => Ok(Judged::Bad(reason)),
            None => {
                let request = self.requests.complete(request)?;
                Ok(Judged::Good { request })
            }
        }
    }

    // Why a message that makes a request is bad, if it is, where a call may stand.
    fn making_reason(&self, new: &NewRequest<'_>) -> Option<FormReason>
        ensures { result ≡ (if not (is_same world new.now.comm.now || is_some (lookup (is_same new.now.comm.now) self.now.comms)) then Some FormReason.UnknownComm
            else (if is_some (lookup (is_same new.now.name.now) self.now.requests.pending) then Some FormReason.NameInUse
            else (if option_map_or (is_far self.now.logs) (option_map (λ rank. rank.0) new.now.peer) false then Some FormReason.RankTooLarge else None))) }
    {
        if !self.has_comm(new.comm) {
            Some(FormReason::UnknownComm)
        } else if self.requests.get(new.name).is_some() {
            Some(FormReason::NameInUse)
        } else if self.is_far(new.peer) {
            Some(FormReason::RankTooLarge)
        } else {
            None
        }
    }

    // Why the wait for a request is bad, if it is, where a call may stand.
    fn waiting_reason(&self, request: &Name, from: Option<Rank>) -> Option<FormReason>
        ensures { result ≡ (if is_none (lookup (is_same request.now) self.now.requests.pending) then Some FormReason.UnknownRequest
            else (if option_map_or (is_far self.now.logs) (option_map (λ rank. rank.0) from) false then Some FormReason.RankTooLarge
            else (if option_map_or (λ request. differ request.receives (is_some from)) (lookup (is_same request.now) self.now.requests.pending) false then Some FormReason.WrongWait else None))) }
    {
        let Some(pending) = self.requests.get(request) else {
            return Some(FormReason::UnknownRequest);
        };
        if self.is_far(from) {
            Some(FormReason::RankTooLarge)
        } else if pending.receives != from.is_some() {
            Some(FormReason::WrongWait)
        } else {
            None
        }
    }
}
