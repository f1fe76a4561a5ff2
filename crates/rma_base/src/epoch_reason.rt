//! Why a call stands in no epoch that allows it.
ghost use Rattle.std.specs.Prelude.{◌≡◌};
ghost use Rattle.rma_base.specs.EpochReason.{epoch_word};

/// The reason of an epoch fault, in the order in which the rules are asked of a call (MPI 4.0, "One-Sided Communications").
#[derive(Clone, Copy, Debug, PartialEq, Eq, PartialOrd, Ord, Hash)]
pub enum EpochReason {
    /// A target, or a rank of a group, that is no member of the window.
    NotMember,
    /// A put, get or accumulate outside every epoch that reaches its target.
    NoEpoch,
    /// A call with a request, outside the passive epochs of its target.
    RequestOutsidePassive,
    /// A touched byte that lies outside the target's part of the window.
    OutsideWindow,
    /// A flush or a sync outside the passive epochs of what it flushes.
    FlushOutsidePassive,
    /// An access epoch that is opened where another one does not allow it.
    AccessOverlap,
    /// A fence while another kind of epoch is open.
    FenceInEpoch,
    /// A fence with `noprecede` behind calls that it would have to complete.
    NoPrecedeBroken,
    /// A post while the one before is open.
    ExposureOverlap,
    /// A call that closes an epoch which is not open.
    CloseWithoutOpen,
    /// The free of a window, or the end of the log, with an epoch that is open.
    EpochLeftOpen,
}

impl EpochReason {
    /// The word that the report has for this reason.
    pub fn word(&self) -> &'static str
        ensures { result.now ≡ epoch_word self.now }
    {
        match self {
            EpochReason::NotMember => "not_member",
            EpochReason::NoEpoch => "no_epoch",
            EpochReason::RequestOutsidePassive => "request_outside_passive",
            EpochReason::OutsideWindow => "outside_window",
            EpochReason::FlushOutsidePassive => "flush_outside_passive",
            EpochReason::AccessOverlap => "access_overlap",
            EpochReason::FenceInEpoch => "fence_in_epoch",
            EpochReason::NoPrecedeBroken => "no_precede_broken",
            EpochReason::ExposureOverlap => "exposure_overlap",
            EpochReason::CloseWithoutOpen => "close_without_open",
            EpochReason::EpochLeftOpen => "epoch_left_open",
        }
    }
}
