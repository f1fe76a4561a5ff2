//! How the posts and starts of a run match, and which calls close their epochs (MPI 4.0, "One-Sided Communications").
//!
//! A target exposes its part of a window by a post, which names the origins that may access it, and ends that by an expwait; an
//! origin accesses the parts of the targets that its start names, until its complete. The k-th start of an origin with a target
//! in its group matches the k-th post of that target with the origin in its group, on each window.
//!
//! [`Exposures`] takes the calls of the ranks one at a time, in any order of the ranks, or those of whole logs at once. It
//! answers the partner of a post or a start and the call that closes its epoch, the posts and starts that have no match, and
//! the edges from completes to expwaits. Work is linear in the size of a group where one is taken, and else that of a
//! look-up in a table or a search in a sorted list.
#![tactic(auto)]

mod edge;
mod exposures;
mod fault;
pub mod laws;
mod opened;
mod openings;
mod rank_epochs;
mod side;
mod side_epochs;
mod whole;

pub use exposures::Exposures;
