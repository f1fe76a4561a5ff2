//! Reading the lines of a log.
//!
//! [`parse_line`] answers what a line states, a [`Stated`]: an [`Event`] and its site, nothing for a blank line or a comment,
//! or the first reason for which the line is bad. The words of a line are walked once, its form is the one of `rma_form`'s
//! table that its first words name, and the fields are read from left to right, each by what `rma_field` says of its kind.
//! What a line states depends on the version of the format that its log has.
#![tactic(auto)]

mod form;
mod parse;
mod words;

pub use parse::parse_line;
pub use rma_field::{ParseError, ParseFault, Texts};
pub use rma_form::{Event, Stated};
