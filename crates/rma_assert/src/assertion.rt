//! Assertions that do not hold.
ghost use Rattle.std.specs.Prelude.{◌≡◌};
ghost use Rattle.rma_assert.specs.Reason.{reason_word};

use rma_base::{LineNo, Rank};

/// Why an assertion does not hold, in the order in which a report has these.
#[derive(Clone, Copy, Debug, PartialEq, Eq, PartialOrd, Ord, Hash)]
pub enum AssertionReason {
    /// A start asserts `nocheck` and its post does not, or the other way round.
    NocheckAlone,
    /// Both do, and the start may be called before the post has returned.
    NocheckUnordered,
    /// The part of the caller was stored to since its last synchronisation.
    Nostore,
    /// The part of the caller is updated in the exposure that the call opens.
    Noput,
    /// Another lock that excludes this one may be held at the same time.
    NocheckLock,
}

/// An assertion that does not hold.
#[derive(Clone, Copy, Debug, PartialEq, Eq)]
pub struct BrokenAssertion {
    /// Why.
    pub reason: AssertionReason,
    /// The rank that asserts it.
    pub rank: Rank,
    /// The line of its call.
    pub line: LineNo,
    /// The rank and the line of the call that shows it.
    pub other: (Rank, LineNo),
}

impl AssertionReason {
    /// The word that the report has for this reason.
    pub fn word(&self) -> &'static str
        ensures { result.now ≡ reason_word self.now }
    {
        match self {
            AssertionReason::NocheckAlone => "nocheck_alone",
            AssertionReason::NocheckUnordered => "nocheck_unordered",
            AssertionReason::Nostore => "nostore",
            AssertionReason::Noput => "noput",
            AssertionReason::NocheckLock => "nocheck_lock",
        }
    }
}
