//! How the calls of all ranks match (MPI 4.0, "Point-to-Point Communication", "Collective Communication", "One-Sided
//! Communications").
//!
//! [`match_faults`] takes the calls of all ranks and answers the calls that others do not match, by reason in the order of
//! the report, then by rank, then by line. What a fault is, and how it is found, stands in a crate for each kind: messages in
//! `rma_message`, posts and starts in `rma_exposure`, windows and communicators in `rma_member`, and the rounds of the calls that
//! every member has to make in `rma_agreement`, `rma_difference` and `rma_missing`.
//!
//! The tables of the rounds are asked first: where they show that each member makes each call and that all agree, no call is
//! looked at again. Else all calls are scanned for what differs, and are counted; only where the counts are not balanced are they
//! scanned a second time, for the calls that some member does not make.
#![tactic(auto)]

mod matching;

pub use matching::match_faults;
