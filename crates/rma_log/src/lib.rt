//! The lines of the log of one rank: which of them are good, and the calls that they record.
//!
//! A [`Reader`] takes the lines of a log one after another, and comes to a [`BookEnd`]: the calls of the rank, or the first bad line,
//! a [`FormFault`]. What a line states is read by `rma_reader`, which keeps the calls, and the book of `rma_judge` judges each event with
//! those before it. A call that is known elsewhere is made by `rma_elsewhere` from its particulars. How a log comes in pieces is told
//! in `rma_book`.
#![tactic(auto)]

mod fault;
pub mod laws;
mod reader;

pub use fault::{BookEnd, FormFault};
pub use reader::{Reader, read_lines};
