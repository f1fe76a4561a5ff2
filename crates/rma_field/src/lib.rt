//! The fields of a line: what each means, and how it is written.
//!
//! A field should be of some kind: a name, a rank, a number in a range, a set of ranks, one of some words. For each kind a
//! function reads a field, and answers its value or the reason for which it is bad, a [`ParseError`]. [`Texts`] keeps each name
//! and each site of a log once, so that what stands often in a log takes memory once. The kinds are those of
//! `specs/Kinds.antt`.
#![tactic(auto)]

mod assertion_field;
mod field;
mod integer_field;
mod number;
mod number_key;
mod parse_error;
mod rank_set;
mod repeat;
mod texts;

pub use assertion_field::assertions_field;
pub use field::{
    is_word, lock_field, lock_word, model_field, operation_field, operations_field, order_field,
    order_word, version_field,
};
pub use integer_field::{int, integer};
pub use number::{natural, rank_field, refused, size_field};
pub use parse_error::{ParseError, ParseFault};
pub use rank_set::{ranks_field, ranks_text, target_field, target_text};
pub use texts::Texts;
