//! Why a call stands in no epoch that allows it, where its ranks all have a part of its window.
ghost use Rattle.std.specs.Prelude.{◌≡◌, ℕ, List, Some, None, true, is_some, if◌then◌else◌};
ghost use Rattle.rma_call.specs.Rma.{access_of};
ghost use Rattle.rma_call.specs.declared.what.What.TheVariants as what;
ghost use Rattle.rma_call.specs.declared.what.SyncCall.TheVariants.{Epoch};
ghost use Rattle.rma_call.specs.declared.epoch.EpochCall.TheVariants.{Fence};
ghost use Rattle.rma_open.specs.Reason.{is_accessing, is_passive, reaches};
ghost use Rattle.rma_open.specs.Reaching.{closed_by, opening_in};
ghost use Rattle.rma_open.specs.inside.Held.{open_of};
ghost use Rattle.rma_open.specs.inside.Member.{member_reason};
ghost use Rattle.rma_open.specs.inside.Settled.{access_reason, in_lock, is_lock, reason_among};

use crate::open_epochs::OpenEpochs;
use crate::opening::{EpochKind, Opening};
use crate::settled::Settled;
use rma_base::{EpochReason, Rank};
use rma_call::{Assertions, EpochCall, RmaRef};

impl OpenEpochs {
    /// The first reason of an access, of which this is settled and which stands in this epoch.
    pub(crate) fn access_reason(
        &self,
        settled: Settled,
        opening: Option<Opening>,
        access: RmaRef<'_>,
        request: Option<u32>,
    ) -> Option<EpochReason>
        requires { opening ≡ opening_in (open_of self.now) (what.Rma (access_of access)) }
        ensures { result ≡ reason_among settled (open_of self.now) (what.Rma (access_of access.entry)) request }
    {
        match access.target() {
            Some(_) => reason_to_target(settled, opening, request),
            None => self.reason_to_none(settled, request),
        }
    }

    /// The first reason of an access to no target.
    fn reason_to_none(&self, settled: Settled, request: Option<u32>) -> Option<EpochReason>
        ensures { result ≡ access_reason (reaches (open_of self.now) None) (is_passive (open_of self.now) None) settled request }
    {
        if !self.reaches_any() {
            return Some(EpochReason::NoEpoch);
        }
        reason_in_epoch(self.is_passive(None), settled, request)
    }

    /// The first reason of a call that opens, completes or closes an epoch, and closes what this call opened.
    pub(crate) fn member_reason(&self, closes: Option<u32>, call: &EpochCall) -> Option<EpochReason>
        requires { closes ≡ closed_by (open_of self.now) (what.Sync (Epoch call.now)) }
        ensures { result ≡ member_reason (open_of self.now) call.now }
    {
        let overlaps = EpochReason::AccessOverlap;
        let outside = EpochReason::FlushOutsidePassive;
        let unopened = EpochReason::CloseWithoutOpen;
        match call {
            EpochCall::Fence { assertions, .. } => self.fence_reason(*assertions),
            EpochCall::Post { .. } => if_so(self.is_posted(), EpochReason::ExposureOverlap),
            EpochCall::Start { .. } => if_so(self.is_accessing() || self.holds_any(), overlaps),
            EpochCall::LockAll { .. } => if_so(self.is_accessing() || self.holds_any(), overlaps),
            EpochCall::Lock { target, .. } => {
                if_so(self.is_accessing() || self.holds(*target), overlaps)
            }
            EpochCall::Flush { target, .. } => if_so(!self.is_passive(Some(*target)), outside),
            EpochCall::FlushLocal { target, .. } => if_so(!self.is_passive(Some(*target)), outside),
            EpochCall::FlushAll { .. } => if_so(!self.is_passive(None), outside),
            EpochCall::FlushLocalAll { .. } => if_so(!self.is_passive(None), outside),
            EpochCall::Sync { .. } => if_so(!self.is_passive(None), outside),
            EpochCall::Complete { .. } => if_so(closes.is_none(), unopened),
            EpochCall::Expwait { .. } => if_so(closes.is_none(), unopened),
            EpochCall::Unlock { .. } => if_so(closes.is_none(), unopened),
            EpochCall::UnlockAll { .. } => if_so(closes.is_none(), unopened),
        }
    }

    /// The first reason of a fence.
    pub(crate) fn fence_reason(&self, assertions: Assertions) -> Option<EpochReason>
        ensures { (window : List ℕ) → result ≡ member_reason (open_of self.now) (Fence window assertions) }
    {
        if self.is_started() || self.is_posted() || self.holds_all() || self.holds_any() {
            return Some(EpochReason::FenceInEpoch);
        }
        if_so(
            assertions.noprecede && self.is_used(),
            EpochReason::NoPrecedeBroken,
        )
    }

    /// Whether some epoch is open that reaches targets: a phase, a start or a lock.
    fn reaches_any(&self) -> bool
        ensures { result ≡ reaches (open_of self.now) None }
    {
        self.has_phase() || self.is_started() || self.is_passive(None)
    }

    /// Whether a lock reaches the target, its own or that of all parts.
    fn is_passive(&self, target: Option<Rank>) -> bool
        ensures { result ≡ is_passive (open_of self.now) target }
    {
        match target {
            Some(target) => self.holds_all() || self.holds(target),
            None => self.holds_all() || self.holds_any(),
        }
    }

    /// Whether an access epoch is open that lets none begin beside it.
    fn is_accessing(&self) -> bool
        ensures { result ≡ is_accessing (open_of self.now) }
    {
        self.is_used() || self.is_started() || self.holds_all()
    }
}

/// The first reason of an access to a target, which stands in this epoch.
fn reason_to_target(
    settled: Settled,
    opening: Option<Opening>,
    request: Option<u32>,
) -> Option<EpochReason>
    ensures { result ≡ access_reason (is_some opening) (in_lock opening) settled request }
{
    match opening {
        Some(opening) => reason_in_epoch(is_lock(opening.kind), settled, request),
        None => Some(EpochReason::NoEpoch),
    }
}

/// The first reason of an access that some epoch reaches, which is a lock where it says so.
fn reason_in_epoch(passive: bool, settled: Settled, request: Option<u32>) -> Option<EpochReason>
    ensures { result ≡ access_reason true passive settled request }
{
    if request.is_some() && !passive {
        return Some(EpochReason::RequestOutsidePassive);
    }
    if_so(settled.outside_window, EpochReason::OutsideWindow)
}

/// Whether an epoch of this kind is that of a lock, of one target or of all.
fn is_lock(kind: EpochKind) -> bool
    ensures { result ≡ is_lock kind }
{
    match kind {
        EpochKind::Lock { .. } => true,
        EpochKind::LockAll => true,
        EpochKind::Fence => false,
        EpochKind::Start => false,
        EpochKind::Post => false,
    }
}

/// The reason where it holds.
fn if_so(holds: bool, reason: EpochReason) -> Option<EpochReason>
    ensures { result ≡ (if holds then Some reason else None) }
{
    if holds { Some(reason) } else { None }
}
