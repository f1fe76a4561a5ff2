//! What is asked of a run, and the answer.
use rma_cut::Cuts;
use rma_report::FindingList;

/// What is asked of a run.
#[derive(Clone, Copy)]
pub(crate) enum Question {
    /// What an audit finds.
    Audit,
    /// What a strict audit finds.
    Strict,
    /// What an audit finds, and the cuts that show the finding of this number, counted from 1, where it is a race.
    Explain { number: u32 },
}

/// The answer.
#[derive(Drop)]
pub(crate) struct Verdict {
    /// What is found.
    pub(crate) found: FindingList,
    /// The cuts, where a finding is to be explained that is a race.
    pub(crate) cuts: Option<Cuts>,
}
