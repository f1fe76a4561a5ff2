//! Which of many sets of bytes share a byte with another.
//!
//! [`Cells`] hold sets of bytes by their ids. The sets cut the bytes into cells: a cell is as many bytes side by side as there are on
//! which one and the same set of ids stands. The cells lie in a B-tree by their first bytes, so that what stands on some bytes is found
//! by a look-up and a walk along the cells that have them, whatever else is held.
//!
//! With id 1 on the bytes from 0 to 7 and id 2 on those from 4 to 11 there are three cells: 0 to 3 with 1, 4 to 7 with both, and 8 to
//! 11 with 2. Byte 6 meets 1 and 2. Without id 1 there is one cell, 4 to 11, and the bytes from 0 to 3 meet none.
#![tactic(auto)]

mod cell;
mod cell_map;
mod cells;
mod edits;
pub mod laws;
mod look;
mod steps;

pub use cells::Cells;
pub use steps::Steps;
