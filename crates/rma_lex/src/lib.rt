//! Cutting a log into its lines, in whatever pieces it comes, and a line into its fields.
//!
//! A [`LineCutter`] is fed the bytes of a log and hands out its lines one by one: each is a [`Line`] with the text and the
//! number of the line, or a [`LexFault`] that says why it is bad. [`tokens`] are the fields of a line, each a [`Token`] with
//! its text and its position in the line; [`last_blank`] is where the last blank of a line stands.
//!
//! Line feeds, bytes that no line may have, and blanks are all found 64 bytes at a time, as the bits of a mask. What is kept
//! of a search that goes on later (`line_feed`, `edge`) is the delicate part: `specs/inside/Found.antt` and
//! `specs/inside/Reached.antt` say what it has to keep true.
#![tactic(auto)]

mod blank;
mod cutter;
mod edge;
mod last;
pub mod laws;
mod line_feed;
mod mask;
mod text;
mod token;

pub use cutter::{LexFault, Line, LineCutter};
pub use last::last_blank;
pub use token::{Token, TokenIter, tokens};
