//! The lock epochs of a rank, its posts, and the exposure epochs that these open (MPI 4.0, "One-Sided Communications").
//!
//! The part of a target may not be locked while a post exposes it. [`list_epochs`] puts those of a rank into [`rma_rules::Spans`],
//! in the order of their opening. It takes constant work for each epoch.
#![tactic(auto)]

mod listing;

pub use listing::list_epochs;
