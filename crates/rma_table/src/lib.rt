//! Tables of rows, for the programs that answer them by the public calls of the crates.
//!
//! A table is a text. A line `row NAME` begins a row; what it gives stands behind it. What is wanted stands in the table too, in lines
//! that begin with `=`, where the checks compare it; here it is passed over, as are comments and empty lines. [`rows_of`] takes a table
//! apart, and [`unescaped`] gives the bytes of a text in which a backslash stands before what is hard to see.
#![tactic(auto)]

mod escape;
mod failure;
mod row;
mod words;

pub use escape::unescaped;
pub use failure::Failure;
pub use row::{Row, number, rows_of};
pub use words::{texts_of, words_given};
