//! What is open on one window.
ghost use Rattle.std.specs.Prelude.{◌≡◌, ◌||◌, ◌∷◌, [], ℕ, List, Option, IfOk, OnOk, is_some};
ghost use Rattle.std.specs.Option.{option_or};
ghost use Rattle.rma_call.specs.Rma.{access_of};
ghost use Rattle.rma_call.specs.Call.{call_of, what_of};
ghost use Rattle.rma_call.specs.declared.what.What.{What};
ghost use Rattle.rma_call.specs.declared.what.What.TheVariants.{Rma, Sync};
ghost use Rattle.rma_call.specs.declared.what.SyncCall.TheVariants.{Epoch, Window};
ghost use Rattle.rma_call.specs.declared.epoch.EpochCall.TheVariants.{Fence};
ghost use Rattle.rma_window.specs.Windows.{Window as RunWindow};
ghost use Rattle.rma_open.specs.declared.settled.Settled.{Settled};
ghost use Rattle.rma_open.specs.Open.{frees, is_exclusive, is_left, is_used, open_after, is_unclosed};
ghost use Rattle.rma_open.specs.Reason.{reason_in};
ghost use Rattle.rma_open.specs.Reaching.{by_phase, by_start, closed_by, opening_in, reaching};
ghost use Rattle.rma_open.specs.inside.Held.{open_of};
ghost use Rattle.rma_open.specs.inside.Member.{member_reason};
ghost use Rattle.rma_open.specs.inside.Next.{past_with};
ghost use Rattle.rma_open.specs.inside.Settled.{reason_among, settled_by};

use crate::opening::{
    EpochKind, FencePhase, HeldLock, OpenStart, Opening, is_used, opened_phase, opening_of_phase,
    phase_if_used, used_phase,
};
use crate::settled::Settled;
use indexmap::IndexMap;
use rma_base::{EpochReason, Memory, Rank};
use rma_call::{Assertions, CallRef, EpochCall, LockKind, RmaRef, WhatRef, WindowCall};
use std::alloc::Global;

/// What a rank has open on one window.
#[derive(Drop)]
pub struct OpenEpochs {
    /// The access epoch of a start.
    start: Option<OpenStart>,
    /// The number of the post whose exposure epoch is open.
    post: Option<u32>,
    /// The number of the lockall that is held.
    lock_all: Option<u32>,
    /// The locks that are held, by the number of their target.
    locks: IndexMap<u32, HeldLock>,
    /// The phase that a fence opened.
    phase: Option<FencePhase>,
    /// Whether the window is freed.
    freed: bool,
}

impl OpenEpochs {
    /// Nothing.
    pub fn new(alloc: Global) -> OpenEpochs
        ensures { open_of result ≡ open_after [] }
    {
        OpenEpochs {
            start: None,
            post: None,
            lock_all: None,
            locks: IndexMap::new(alloc),
            phase: None,
            freed: false,
        }
    }

    /// Takes the call of this number, which is the next one on the window, unless it stands in no epoch that allows it: then it
    /// answers why, and nothing changes. This is settled of the call, and it stands in this epoch and closes what this call opened.
    ///
    /// # Errors
    ///
    /// `Memory`, and then nothing is said of what is open.
    pub fn take_allowed(
        &mut self,
        settled: Settled,
        opening: Option<Opening>,
        closes: Option<u32>,
        number: u32,
        call: CallRef<'_>,
    ) -> Result<Option<EpochReason>, Memory>
        requires opening { opening ≡ opening_in (open_of self.old) (call_of call).what }
        requires closes { closes ≡ closed_by (open_of self.old) (call_of call).what }
        ensures reason { IfOk result (λ reason. (windows : List RunWindow) → settled ≡ settled_by windows (call_of call.entry).what
            → reason ≡ reason_in windows (open_of self.old) (call_of call.entry).what call.entry.request) }
        ensures taken { IfOk result (λ reason. (past : List (ℕ × What)) → open_of self.old ≡ open_after past
            → open_of self.new ≡ open_after (past_with reason (number, (call_of call.entry).what) past)) }
    {
        if settled.not_member {
            return Ok(Some(EpochReason::NotMember));
        }
        self.take_among(settled, opening, closes, number, call)
    }

    /// The same where all ranks that the call names have a part of the window.
    fn take_among(
        &mut self,
        settled: Settled,
        opening: Option<Opening>,
        closes: Option<u32>,
        number: u32,
        call: CallRef<'_>,
    ) -> Result<Option<EpochReason>, Memory>
        requires opening { opening ≡ opening_in (open_of self.old) (call_of call).what }
        requires closes { closes ≡ closed_by (open_of self.old) (call_of call).what }
        ensures reason { IfOk result (λ reason. reason ≡ reason_among settled (open_of self.old) (call_of call.entry).what call.entry.request) }
        ensures taken { IfOk result (λ reason. (past : List (ℕ × What)) → open_of self.old ≡ open_after past
            → open_of self.new ≡ open_after (past_with reason (number, (call_of call.entry).what) past)) }
    {
        match call.what {
            WhatRef::Epoch(epoch) => self.take_epoch(closes, number, epoch),
            WhatRef::Rma(access) => Ok(self.take_access(settled, opening, access, call.request)),
            WhatRef::Window(window) => Ok(self.take_window(window)),
            _ => Ok(None),
        }
    }

    /// Takes an access to a target, unless it has a reason.
    fn take_access(
        &mut self,
        settled: Settled,
        opening: Option<Opening>,
        access: RmaRef<'_>,
        request: Option<u32>,
    ) -> Option<EpochReason>
        requires { opening ≡ opening_in (open_of self.old) (Rma (access_of access)) }
        ensures reason { result ≡ reason_among settled (open_of self.old) (Rma (access_of access.entry)) request }
        ensures taken { (number : ℕ) (past : List (ℕ × What)) → open_of self.old ≡ open_after past
            → open_of self.new ≡ open_after (past_with result (number, Rma (access_of access.entry)) past) }
    {
        let reason = self.access_reason(settled, opening, access, request);
        if reason.is_some() {
            return reason;
        }
        self.phase = used_phase(self.phase);
        None
    }

    /// Takes a call that frees the window, unless it has a reason. Any other call on windows is on none.
    fn take_window(&mut self, call: &WindowCall) -> Option<EpochReason>
        ensures reason { (settled : Settled) (request : Option ℕ) → result ≡ reason_among settled (open_of self.old) (Sync (Window call.now)) request }
        ensures taken { (number : ℕ) (past : List (ℕ × What)) → open_of self.old ≡ open_after past
            → open_of self.new ≡ open_after (past_with result (number, Sync (Window call.now)) past) }
    {
        if matches!(call, WindowCall::Free { .. }) && self.is_left() {
            return Some(EpochReason::EpochLeftOpen);
        }
        self.freed = freed_after(self.freed, call);
        None
    }

    /// Takes a call that opens, completes or closes an epoch, unless it has a reason.
    fn take_epoch(
        &mut self,
        closes: Option<u32>,
        number: u32,
        call: &EpochCall,
    ) -> Result<Option<EpochReason>, Memory>
        requires { closes ≡ closed_by (open_of self.old) (Sync (Epoch call.now)) }
        ensures reason { IfOk result (λ reason. reason ≡ member_reason (open_of self.old) call.now) }
        ensures taken { IfOk result (λ reason. (past : List (ℕ × What)) → open_of self.old ≡ open_after past
            → open_of self.new ≡ open_after (past_with reason (number, Sync (Epoch call.now)) past)) }
    {
        if let EpochCall::Fence { assertions, .. } = call {
            return Ok(self.take_fence(number, *assertions));
        }
        let reason = self.member_reason(closes, call);
        if reason.is_some() {
            return Ok(reason);
        }
        self.turn(number, call)?;
        Ok(None)
    }

    /// Takes a fence, unless it has a reason.
    fn take_fence(&mut self, number: u32, assertions: Assertions) -> Option<EpochReason>
        ensures reason { (window : List ℕ) → result ≡ member_reason (open_of self.old) (Fence window assertions) }
        ensures taken { (window : List ℕ) (past : List (ℕ × What)) → open_of self.old ≡ open_after past
            → open_of self.new ≡ open_after (past_with result (number, Sync (Epoch (Fence window assertions))) past) }
    {
        let reason = self.fence_reason(assertions);
        if reason.is_some() {
            return reason;
        }
        self.phase = opened_phase(number, assertions.nosucceed);
        None
    }

    /// Opens or closes what the call opens or closes.
    fn turn(&mut self, number: u32, call: &EpochCall) -> Result<(), Memory>
        ensures { OnOk result ((past : List (ℕ × What)) → open_of self.old ≡ open_after past → open_of self.new ≡ open_after ((number, Sync (Epoch call.now)) ∷ past)) }
    {
        match call {
            EpochCall::Fence { assertions, .. } => {
                self.phase = opened_phase(number, assertions.nosucceed);
            }
            EpochCall::Post { .. } => self.post = Some(number),
            EpochCall::Expwait { .. } => self.post = None,
            EpochCall::Start { targets, .. } => {
                let targets = targets.copy()?;
                self.start = Some(OpenStart {
                    opener: number,
                    targets,
                });
                self.phase = phase_if_used(self.phase);
            }
            EpochCall::Complete { .. } => self.start = None,
            EpochCall::Lock { target, kind, .. } => {
                self.locks.insert(target.0, held_lock(number, *kind))?;
                self.phase = phase_if_used(self.phase);
            }
            EpochCall::Unlock { target, .. } => {
                self.locks.swap_remove(&target.0);
            }
            EpochCall::LockAll { .. } => {
                self.lock_all = Some(number);
                self.phase = phase_if_used(self.phase);
            }
            EpochCall::UnlockAll { .. } => self.lock_all = None,
            EpochCall::Flush { .. } => {}
            EpochCall::FlushAll { .. } => {}
            EpochCall::FlushLocal { .. } => {}
            EpochCall::FlushLocalAll { .. } => {}
            EpochCall::Sync { .. } => {}
        }
        Ok(())
    }

    /// The epoch in which a call on the window stands, where it is an access to a target.
    pub fn opening(&self, what: WhatRef<'_>) -> Option<Opening>
        ensures { result ≡ opening_in (open_of self.now) (what_of what.entry) }
    {
        match what {
            WhatRef::Rma(access) => match access.target() {
                Some(target) => self.reaching(target),
                None => None,
            },
            WhatRef::Epoch(_) => None,
            WhatRef::Window(_) => None,
            WhatRef::Frame(_) => None,
            WhatRef::Message(_) => None,
            WhatRef::Moving(_) => None,
            WhatRef::Local(_) => None,
        }
    }

    /// The epoch that reaches a target.
    fn reaching(&self, target: Rank) -> Option<Opening>
        ensures { result ≡ reaching (open_of self.now) target }
    {
        if let Some(lock) = self.lock_on(target) {
            return Some(Opening {
                kind: EpochKind::Lock {
                    exclusive: lock.exclusive,
                },
                opener: lock.opener,
            });
        }
        match self.lock_all {
            Some(opener) => Some(Opening {
                kind: EpochKind::LockAll,
                opener,
            }),
            None => self.active_reaching(target),
        }
    }

    /// The epoch without a lock that reaches a target.
    fn active_reaching(&self, target: Rank) -> Option<Opening>
        ensures { result ≡ option_or (by_start (open_of self.now) target) (by_phase (open_of self.now)) }
    {
        if let Some(start) = &self.start {
            if start.targets.has(target) {
                return Some(Opening {
                    kind: EpochKind::Start,
                    opener: start.opener,
                });
            }
        }
        opening_of_phase(self.phase)
    }

    /// The number of the call that opened what a call on the window closes, where that is open.
    pub fn closed_by(&self, what: WhatRef<'_>) -> Option<u32>
        ensures { result ≡ closed_by (open_of self.now) (what_of what.entry) }
    {
        match what {
            WhatRef::Epoch(call) => self.closed_by_epoch(call),
            WhatRef::Rma(_) => None,
            WhatRef::Window(_) => None,
            WhatRef::Frame(_) => None,
            WhatRef::Message(_) => None,
            WhatRef::Moving(_) => None,
            WhatRef::Local(_) => None,
        }
    }

    /// The same for a call that opens, completes or closes an epoch.
    fn closed_by_epoch(&self, call: &EpochCall) -> Option<u32>
        ensures { result ≡ closed_by (open_of self.now) (Sync (Epoch call.now)) }
    {
        match call {
            EpochCall::Fence { .. } => self.phase.map(|phase| phase.opener),
            EpochCall::Complete { .. } => self.start.as_ref().map(|start| start.opener),
            EpochCall::Unlock { target, .. } => self.lock_on(*target).map(|lock| lock.opener),
            EpochCall::UnlockAll { .. } => self.lock_all,
            EpochCall::Expwait { .. } => self.post,
            EpochCall::Post { .. } => None,
            EpochCall::Start { .. } => None,
            EpochCall::Lock { .. } => None,
            EpochCall::LockAll { .. } => None,
            EpochCall::Flush { .. } => None,
            EpochCall::FlushAll { .. } => None,
            EpochCall::FlushLocal { .. } => None,
            EpochCall::FlushLocalAll { .. } => None,
            EpochCall::Sync { .. } => None,
        }
    }

    /// The lock of a target. Nothing is looked up while none is held.
    fn lock_on(&self, target: Rank) -> Option<HeldLock>
        ensures { result ≡ (open_of self.now).lock_on target.0 }
    {
        if self.locks.is_empty() {
            return None;
        }
        self.locks.get(&target.0).copied()
    }

    /// Whether some target is locked by a lock of its own.
    pub(crate) fn holds_any(&self) -> bool
        ensures { result ≡ (open_of self.now).any_lock }
    {
        self.locks.len() > 0
    }

    /// Whether the target is locked by a lock of its own.
    pub(crate) fn holds(&self, target: Rank) -> bool
        ensures { result ≡ is_some ((open_of self.now).lock_on target.0) }
    {
        self.locks.contains_key(&target.0)
    }

    /// Whether all targets are locked at once.
    pub(crate) fn holds_all(&self) -> bool
        ensures { result ≡ is_some (open_of self.now).lock_all }
    {
        self.lock_all.is_some()
    }

    /// Whether the access epoch of a start is open.
    pub(crate) fn is_started(&self) -> bool
        ensures { result ≡ is_some (open_of self.now).start }
    {
        self.start.is_some()
    }

    /// Whether an exposure epoch is open.
    pub(crate) fn is_posted(&self) -> bool
        ensures { result ≡ is_some (open_of self.now).post }
    {
        self.post.is_some()
    }

    /// Whether a phase is open.
    pub(crate) fn has_phase(&self) -> bool
        ensures { result ≡ is_some (open_of self.now).phase }
    {
        self.phase.is_some()
    }

    /// Whether a phase is open, and an access stands in it.
    pub(crate) fn is_used(&self) -> bool
        ensures { result ≡ is_used (open_of self.now) }
    {
        is_used(self.phase)
    }

    /// Whether some epoch is open that has to be closed.
    pub(crate) fn is_left(&self) -> bool
        ensures { result ≡ is_left (open_of self.now) }
    {
        self.is_started()
            || self.is_posted()
            || self.holds_all()
            || self.holds_any()
            || self.is_used()
    }

    /// Whether that is so and the window is not freed.
    pub fn is_unclosed(&self) -> bool
        ensures { result ≡ is_unclosed (open_of self.now) }
    {
        !self.freed && self.is_left()
    }
}

/// The lock that the call of this number takes.
fn held_lock(number: u32, kind: LockKind) -> HeldLock
    ensures { result ≡ record { opener = number; exclusive = is_exclusive kind } }
{
    HeldLock {
        opener: number,
        exclusive: matches!(kind, LockKind::Exclusive),
    }
}

/// Whether the window is freed after the call.
fn freed_after(freed: bool, call: &WindowCall) -> bool
    ensures { result ≡ (frees (Sync (Window call.now)) || freed) }
{
    match call {
        WindowCall::Free { .. } => true,
        _ => freed,
    }
}
