//! The lines of a log that came before.
//!
//! A program makes its calls at a few places over and over, so its log says the same words again and again. A line is cut into
//! its words and its site, as a [`SplitLine`]. [`KnownLines`] are the words that came again, each a [`KnownLine`] with the number
//! of what it states. [`CallTemplates`] know of most calls the line that states the same call elsewhere, as a [`PlacedCall`]: with
//! other [`Particulars`], which are ranks, tags, addresses and numbers of bytes, and the names of communicators, windows and
//! requests; a [`CallForm`] says which fields of a line those are. A [`Repetition`] tells how much the log repeats itself: where it
//! hardly does, few of its lines are looked up.
#![tactic(auto)]

mod call_form;
mod call_template;
mod call_templates;
mod decimal;
mod key;
mod known_line;
mod known_lines;
mod part_at;
mod particulars;
mod placed_call;
mod repetition;
mod split_line;

pub use call_form::{CallForm, Part, Place};
pub use call_templates::CallTemplates;
pub use key::key_of;
pub use known_line::KnownLine;
pub use known_lines::KnownLines;
pub use particulars::{Numbers, Particulars};
pub use placed_call::PlacedCall;
pub use repetition::Repetition;
pub use split_line::{SplitLine, is_comment};
