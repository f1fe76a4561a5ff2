//! What a strict audit finds where an audit finds nothing (MPI 4.0, "One-Sided Communications", assertions and dynamically attached
//! memory).
ghost use Rattle.std.specs.Prelude.{◌≡◌};
ghost use Rattle.rma_report.specs.Strict.{of_assertion, of_region, strict_word};

use rma_assert::{AssertionReason, BrokenAssertion};
use rma_base::{LineNo, Rank};
use rma_dyn::{RegionFault, RegionReason};

/// The reason of a fault that a strict audit finds.
#[derive(Clone, Copy, Debug, PartialEq, Eq)]
pub enum StrictReason {
    /// An assertion does not hold.
    Assertion(AssertionReason),
    /// Memory of a dynamic window is not attached where it has to be.
    Region(RegionReason),
}

/// A fault that a strict audit finds.
#[derive(Clone, Copy, Debug, PartialEq, Eq)]
pub struct StrictFault {
    /// Its reason.
    pub reason: StrictReason,
    /// The rank that makes the call.
    pub rank: Rank,
    /// The line of the call.
    pub line: LineNo,
    /// The rank and the line of the call that shows it, if one does.
    pub other: Option<(Rank, LineNo)>,
}

impl StrictReason {
    /// The word that the report has for this reason.
    pub fn word(&self) -> &'static str
        ensures { result.now ≡ strict_word self.now }
    {
        match self {
            StrictReason::Assertion(reason) => reason.word(),
            StrictReason::Region(reason) => reason.word(),
        }
    }
}

impl From<BrokenAssertion> for StrictFault {
    ghost from_gives = { λ broken fault. fault ≡ of_assertion broken };

    fn from(broken: BrokenAssertion) -> StrictFault {
        StrictFault {
            reason: StrictReason::Assertion(broken.reason),
            rank: broken.rank,
            line: broken.line,
            other: Some(broken.other),
        }
    }
}

impl From<RegionFault> for StrictFault {
    ghost from_gives = { λ region fault. fault ≡ of_region region };

    fn from(region: RegionFault) -> StrictFault {
        StrictFault {
            reason: StrictReason::Region(region.reason),
            rank: region.rank,
            line: region.line,
            other: region.other,
        }
    }
}
