//! The spans of the calls of a rank, one by one.
ghost use Rattle.std.specs.Prelude.{◌≡◌, ◌≤◌, ◌+◌, ◌++◌, [], ℕ, Option, Some, length, slice_get, take, IfOk, OnOk};
ghost use Rattle.std.specs.List.{cons_option};
ghost use Rattle.rma_base.specs.declared.rank.Rank.{Rank};
ghost use Rattle.rma_call.specs.Call.{Call, call_of};
ghost use Rattle.rma_call.specs.declared.rma.RmaCall.{RmaCall};
ghost use Rattle.rma_call.specs.declared.local.LocalCall.{LocalCall};
ghost use Rattle.rma_call.specs.declared.what.What.TheVariants.{Local, Rma};
ghost use Rattle.rma_cover.specs.Cover.{StayThere};
ghost use Rattle.rma_match.specs.Matches.{AreMatches};
ghost use Rattle.rma_run.specs.Run.{IsRun};
ghost use Rattle.rma_span.specs.Span.{Origin};
ghost use Rattle.rma_span.specs.inside.Origin.{IsOf, IsOnWay};
ghost use Rattle.rma_span.specs.inside.Stored.{ArePut, AreSpans};

use crate::own::{buffer_span, local_span};
use crate::placed::epoch_of;
use crate::run::RankRun;
use crate::spans::CallSpans;
use crate::target::target_span;
use rma_base::{Memory, Rank};
use rma_call::{CallList, CallRef, WhatRef};
use rma_cover::{KeyLists, OwnLocks};
use rma_side::Sides;
use std::alloc::Global;

/// What is kept on the way along the calls of a rank.
#[derive(Drop)]
pub(crate) struct Walk {
    /// The locks of the rank on itself.
    pub held: OwnLocks,
    /// Where its epochs open and end at their targets.
    pub sides: Sides,
    /// The lists of lock epochs in which memory of the rank itself is used.
    pub own_lists: KeyLists,
    /// The lists of lock epochs in which targets are accessed.
    pub target_lists: KeyLists,
    /// The index of the next access that is placed.
    pub next: usize,
}

impl Walk {
    /// The spans of the call of a number, to which the locks went on, if it has some.
    pub(crate) fn call_spans(
        &mut self,
        from: RankRun<'_>,
        number: u32,
        call: CallRef<'_>,
    ) -> Result<Option<CallSpans>, Memory>
        requires run { IsRun from.ranks.now }
        requires matches { AreMatches from.ranks.now from.matches.now }
        ensures kept { IfOk result (λ kept. (own : Origin) → IsOf own from.entry → slice_get own.sound number ≡ Some (call_of call.entry) → IsOnWay own number self.old
            → ArePut own number (call_of call.entry) self.new.own_lists self.new.target_lists kept) }
        ensures way { OnOk result ((own : Origin) (at : ℕ) → IsOf own from.entry → IsOnWay own at self.old → IsOnWay own at self.new) }
        ensures own { OnOk result (StayThere self.old.own_lists self.new.own_lists) }
        ensures target { OnOk result (StayThere self.old.target_lists self.new.target_lists) }
    {
        match call.what {
            WhatRef::Local(_) => self.local_spans(from, number),
            WhatRef::Rma(access) => {
                self.access_spans(from, number, access.target(), call.request)
            }
            WhatRef::Frame(_) => Ok(None),
            WhatRef::Message(_) => Ok(None),
            WhatRef::Window(_) => Ok(None),
            WhatRef::Epoch(_) => Ok(None),
            WhatRef::Moving(_) => Ok(None),
        }
    }

    /// Goes on to the call of a number, which is not before the last one.
    fn go_on(&mut self, number: u32) -> Result<(), Memory>
        ensures way { OnOk result ((own : Origin) (before : ℕ) → before ≤ number → IsOnWay own before self.old → IsOnWay own number self.new) }
        ensures own { OnOk result (self.new.own_lists ≡ self.old.own_lists) }
        ensures target { OnOk result (self.new.target_lists ≡ self.old.target_lists) }
    {
        self.held.go_on(number)
    }

    /// Goes on to the call of a number, and adds its spans, if it has some.
    fn add_spans(
        &mut self,
        from: RankRun<'_>,
        number: u32,
        call: CallRef<'_>,
        kept: &mut Vec<CallSpans>,
    ) -> Result<(), Memory>
        requires run { IsRun from.ranks.now }
        requires matches { AreMatches from.ranks.now from.matches.now }
        ensures way { OnOk result ((own : Origin) (before : ℕ) → before ≤ number → IsOf own from.entry → IsOnWay own before self.old → IsOnWay own number self.new) }
        ensures kept { OnOk result ((own : Origin) (before : ℕ) → before ≤ number → IsOf own from.entry → slice_get own.sound number ≡ Some (call_of call.entry) → IsOnWay own before self.old
            → AreSpans own (take number own.sound) self.old.own_lists self.old.target_lists kept.old.items
            → AreSpans own (take (number + 1) own.sound) self.new.own_lists self.new.target_lists kept.new.items) }
    {
        self.go_on(number)?;
        let spans = self.call_spans(from, number, call)?;
        push_some(kept, spans)
    }

    /// The spans of a load, a store or a poll.
    fn local_spans(&mut self, from: RankRun<'_>, number: u32) -> Result<Option<CallSpans>, Memory>
        ensures kept { IfOk result (λ kept. (own : Origin) (call : Call) (local : LocalCall) → IsOf own from.entry → call.what ≡ Local local → IsOnWay own number self.old
            → ArePut own number call self.new.own_lists self.new.target_lists kept) }
        ensures way { OnOk result ((own : Origin) (at : ℕ) → IsOf own from.entry → IsOnWay own at self.old → IsOnWay own at self.new) }
        ensures own { OnOk result (StayThere self.old.own_lists self.new.own_lists) }
        ensures target { OnOk result (StayThere self.old.target_lists self.new.target_lists) }
    {
        let own = local_span(from, &mut self.held, &mut self.own_lists, number)?;
        Ok(Some(CallSpans {
            call: number,
            own,
            target: None,
        }))
    }

    /// The spans of an access to this target, if it has one.
    fn access_spans(
        &mut self,
        from: RankRun<'_>,
        number: u32,
        target: Option<Rank>,
        request: Option<u32>,
    ) -> Result<Option<CallSpans>, Memory>
        requires run { IsRun from.ranks.now }
        requires matches { AreMatches from.ranks.now from.matches.now }
        ensures kept { IfOk result (λ kept. (own : Origin) (call : Call) (access : RmaCall) → IsOf own from.entry → call.what ≡ Rma access → access.target ≡ target → call.request ≡ request
            → slice_get own.sound number ≡ Some call → IsOnWay own number self.old → ArePut own number call self.new.own_lists self.new.target_lists kept) }
        ensures way { OnOk result ((own : Origin) (at : ℕ) → IsOf own from.entry → IsOnWay own at self.old → IsOnWay own at self.new) }
        ensures own { OnOk result (StayThere self.old.own_lists self.new.own_lists) }
        ensures target { OnOk result (StayThere self.old.target_lists self.new.target_lists) }
    {
        let Some(target) = target else {
            return Ok(None);
        };
        let Some(index) = epoch_of(from.table, &mut self.next, number) else {
            return Ok(None);
        };
        let Some(epoch) = from.epochs.get(index as usize) else {
            return Ok(None);
        };
        let own = buffer_span(
            from,
            &mut self.held,
            &mut self.own_lists,
            number,
            request,
            epoch,
            target,
        )?;
        let at_target = target_span(
            from,
            &mut self.sides,
            &mut self.target_lists,
            number,
            index,
            target,
        )?;
        Ok(Some(CallSpans {
            call: number,
            own,
            target: Some(at_target),
        }))
    }
}

/// Appends the spans of a call, if it has some.
fn push_some(kept: &mut Vec<CallSpans>, spans: Option<CallSpans>) -> Result<(), Memory>
    ensures { OnOk result (kept.new.items ≡ kept.old.items ++ cons_option spans []) }
{
    if let Some(spans) = spans {
        kept.push(spans)?;
    }
    Ok(())
}

/// The spans of the first calls of a rank, so many, of which none is on the way yet.
pub(crate) fn all_spans(
    alloc: Global,
    from: RankRun<'_>,
    calls: &CallList,
    sound: u32,
    walk: &mut Walk,
) -> Result<Vec<CallSpans>, Memory>
    requires run { IsRun from.ranks.now }
    requires matches { AreMatches from.ranks.now from.matches.now }
    requires sound { sound ≤ length calls.now.calls }
    ensures { IfOk result (λ kept. (own : Origin) → IsOf own from.entry → own.sound ≡ take sound calls.now.calls → IsOnWay own 0 walk.old
        → AreSpans own [] walk.old.own_lists walk.old.target_lists [] → AreSpans own own.sound walk.new.own_lists walk.new.target_lists kept.items) }
{
    let mut kept = Vec::new(alloc);
    for number in 0..sound {
        walk.add_spans(from, number, calls.get(number as usize), &mut kept)?;
    }
    Ok(kept)
}
