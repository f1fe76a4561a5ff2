//! The forms of the lines of a log: what a line states, and how it is written.
//!
//! `specs/Forms.antt` is a table in which a form is one row: its verb, the kinds of its fields, what may stand behind them, and
//! the event that their values make. What a line states follows from the row of its form, which [`form_of`] finds by the first
//! words: a [`Stated`], which is an [`Event`] and its site. So does how it is written, which is what [`line_of`] does: each
//! event has one canonical line, and that line states it. [`LineForm`] has the same rows for whoever reads the fields.
#![tactic(auto)]

mod canonical;
mod event;
mod form;
mod group;
pub mod laws;
mod line;
mod texts;

pub use canonical::line_of;
pub use event::{Access, Buffer, Event, LocalLine, RmaLine, Stated, Transfer, TypeLine};
pub use form::{LineForm, form_of, tail_counted};
pub use group::{DISTANCE, Group, groups};
pub use texts::{behind, first_of};
