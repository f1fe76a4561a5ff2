//! What a rank has open on one window (MPI 4.0, "One-Sided Communications").
//!
//! A call on a window is allowed where the calls before it left the right epochs open: a phase between two fences, the access
//! epoch of a start, the exposure epoch of a post, or locks. [`OpenEpochs`] takes the calls of a rank on one window, in their
//! order, and answers of the first that stands in no epoch which allows it why it does not. Of any call it tells the [`Opening`]
//! in which an access stands, and the call that opened what it closes. [`window_on`] tells the window that a call is on.
//!
//! A call takes constant work, whatever is open and however many runs it touches, but for the ranks of its own group. So does
//! each question. No name and no part is looked up: what no other call changes is [`Settled`] before a call comes, and the part of
//! an access is looked up once, by [`part_on`].
#![tactic(auto)]

mod call;
mod member;
mod open_epochs;
mod opening;
mod range;
mod reason;
mod settled;

pub use call::window_on;
pub use member::part_on;
pub use open_epochs::OpenEpochs;
pub use opening::{EpochKind, FencePhase, HeldLock, OpenStart, Opening};
pub use range::touches_outside;
pub use settled::Settled;
