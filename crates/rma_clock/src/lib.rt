//! The order of any two points of a possible run, as a look-up.
//!
//! [`Clocks`] answer whether one point is at or before another. [`SharedClocks`] are those of a whole run: they keep numbers by
//! rank, how many of its points are before, and only at returns that receive something. All returns of a meet share theirs, and
//! a point finds its own by a binary search of its rank, so a point that receives nothing takes no memory. Such a row of numbers is
//! stored in blocks, and shares those that did not rise since the row before of its rank. [`LiveClocks`] keep the same table while a run
//! is still read: its points are settled one by one, each with the points that it comes after. [`DenseClocks`] are plain: a row for
//! each point of a whole run. Tests compare others with them.
#![tactic(auto)]

mod blocks;
mod builder;
mod clocks;
mod dense;
mod live;
mod row;
mod rows;
mod shared;
mod step;
mod table;

pub use clocks::Clocks;
pub use dense::DenseClocks;
pub use live::LiveClocks;
pub use shared::SharedClocks;
