//! The exposure epochs between fences (MPI 4.0, "One-Sided Communications", fence).
//!
//! A fence of a target exposes its part of the window until its next fence there, if some rank accesses the target in the phase
//! between them. [`AccessedPhases`] are the phases of the targets of a run in which some access stands: they are added rank by rank,
//! in constant work for each access. [`list_fenced`] then puts the exposures of one target into [`rma_rules::Spans`], in the order of
//! the fences that close them, in constant work for each call.
#![tactic(auto)]

pub mod laws;
mod listing;
mod phase;
mod phases;

pub use listing::list_fenced;
pub use phase::Phase;
pub use phases::AccessedPhases;
