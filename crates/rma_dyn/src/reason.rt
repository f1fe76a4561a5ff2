//! Why memory of a dynamic window is not as it has to be.
ghost use Rattle.std.specs.Prelude.{◌≡◌};
ghost use Rattle.rma_dyn.specs.Reason.{reason_place, reason_word};

/// The reason of a fault of the memory of a dynamic window, in the order in which a report has them.
#[derive(Clone, Copy, Debug, PartialEq, Eq)]
pub enum RegionReason {
    /// An attach whose bytes meet those of a region that is attached.
    AttachOverlap,
    /// A detach of memory that is not attached.
    DetachUnknown,
    /// An access to memory that is not surely attached.
    Unattached,
    /// A detach that does not surely come after an access.
    DetachUnordered,
}

impl RegionReason {
    /// The word that the report has for this reason.
    pub fn word(&self) -> &'static str
        ensures { result.now ≡ reason_word self.now }
    {
        match self {
            RegionReason::AttachOverlap => "attach_overlap",
            RegionReason::DetachUnknown => "detach_unknown",
            RegionReason::Unattached => "unattached",
            RegionReason::DetachUnordered => "detach_unordered",
        }
    }

    /// Its place among the reasons.
    pub(crate) fn place(self) -> u32
        ensures { result ≡ reason_place self }
    {
        match self {
            RegionReason::AttachOverlap => 0,
            RegionReason::DetachUnknown => 1,
            RegionReason::Unattached => 2,
            RegionReason::DetachUnordered => 3,
        }
    }
}
