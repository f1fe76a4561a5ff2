//! Why a call has no match, or a match that differs from it.
ghost use Rattle.std.specs.Prelude.{◌≡◌};
ghost use Rattle.rma_base.specs.MatchReason.{match_word};

/// The reason of a fault of matching, in the order in which a report has them.
#[derive(Clone, Copy, Debug, PartialEq, Eq, PartialOrd, Ord, Hash)]
pub enum MatchReason {
    /// A send that no receive takes.
    SendUnreceived,
    /// A receive that no send feeds.
    ReceiveUnsent,
    /// A collective call of another kind, or on another window, than that of the first member at the same place.
    CollectiveDiffers,
    /// A collective call that some member does not make.
    CollectiveMissing,
    /// A fence whose assertions differ from those of the first member's fence.
    AssertDiffers,
    /// A post with a rank of its group that has no matching start.
    PostUnmatched,
    /// A start with a rank of its group that has no matching post.
    StartUnmatched,
    /// A window that is created with another communicator, model or order than by the first rank.
    WindowDiffers,
    /// A communicator that is declared with other ranks than by the first rank.
    CommDiffers,
    /// A collective call that moves data, and differs from that of the first member at the same place: another call, root or
    /// number of bytes, or after another number of barriers and window creations.
    DataDiffers,
    /// A collective call that moves data, and that some member does not make.
    DataMissing,
}

impl MatchReason {
    /// The word that the report has for this reason.
    pub fn word(&self) -> &'static str
        ensures { result.now ≡ match_word self.now }
    {
        match self {
            MatchReason::SendUnreceived => "send_unreceived",
            MatchReason::ReceiveUnsent => "receive_unsent",
            MatchReason::CollectiveDiffers => "collective_differs",
            MatchReason::CollectiveMissing => "collective_missing",
            MatchReason::AssertDiffers => "assert_differs",
            MatchReason::PostUnmatched => "post_unmatched",
            MatchReason::StartUnmatched => "start_unmatched",
            MatchReason::WindowDiffers => "window_differs",
            MatchReason::CommDiffers => "comm_differs",
            MatchReason::DataDiffers => "data_differs",
            MatchReason::DataMissing => "data_missing",
        }
    }
}
