//! Sets of bytes: what a buffer touches, what two buffers share, and whether one lies in another.
//!
//! A [`Run`] is bytes side by side, and [`Runs`] a set of bytes, as the one ascending list of runs that has them: equal sets
//! are equal lists ([`laws`]). A set is made of blocks in any order by a sort, two sets are compared by one walk over both
//! lists, and one run by a binary search.
//!
//! A [`Layout`] is the bytes that a call touches in a buffer. A log has millions of them, most of a few entries side by side,
//! which take 16 bytes; the others share their runs with the layouts that differ by a distance alone.
//! A [`MovedLayout`] is a layout at a [`Distance`] from where it stands.
#![tactic(auto)]

mod distance;
pub mod laws;
mod layout;
mod merge;
mod moved_layout;
mod movement;
mod overlap;
mod region;
mod run;
mod runs;
mod search;

pub use distance::Distance;
pub use layout::Layout;
pub use moved_layout::MovedLayout;
pub use run::Run;
pub use runs::Runs;
