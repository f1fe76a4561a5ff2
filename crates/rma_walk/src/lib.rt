//! A walk over the points of a run in the order that its links give.
//!
//! [`walk`] passes each point after all points that come before it. Where it can pass all, it answers their order; where it
//! cannot, two points wait for each other, and it answers the first call of each rank that is never left. [`Walked`] is one
//! or the other. [`first_impossible_calls`] walks in the same way and answers such calls alone, so it keeps no order.
//!
//! It passes the points of one rank until a return has to wait for an entry of another rank, and then follows that rank up
//! to a point that it can pass. The ranks that are followed stand in a line, so a cycle is found where the line comes back to
//! itself. Where a return waits for a meet alone, the other members are first passed up to their entries, each as far as
//! nothing is known to block it, so that only one that is blocked is followed.
//!
//! An [`Inbox`] has what the returns of one rank wait for, each a [`Source`], and [`inboxes_of`] makes those of a run. A call
//! that waits for one meet alone takes 8 bytes there. A meet remembers how many of its first members are entered, so that
//! each member is looked at once.
#![tactic(auto)]

mod front;
mod inbox;
pub mod laws;
mod pending;
mod run;
mod search;
mod source;
mod waits;
mod walked;
mod walking;

pub use inbox::Inbox;
pub use pending::inboxes_of;
pub use source::Source;
pub use walked::Walked;
pub use walking::{first_impossible_calls, walk};
