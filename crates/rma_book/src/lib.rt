//! The log of one rank, as its bytes come.
//!
//! A [`RankBook`] is fed the log of its rank in pieces of any size, and its outcome is a [`BookEnd`]: the calls of the rank,
//! or the first bad line, a [`FormFault`]. Inside it a cutter gives the lines, and the reader of `rma_log` takes them.
#![tactic(auto)]

mod rank_book;

pub use rank_book::RankBook;
pub use rma_log::{BookEnd, FormFault};
pub use rma_reader::SharedSites;
