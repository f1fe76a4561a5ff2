//! What calls touch (MPI 4.0, "One-Sided Communications").
//!
//! A call touches memory in up to four roles, as a put the part of its target and its origin buffer. [`touch_at`] tells what it
//! touches in a role, as a [`Touch`], and [`Touch::access`] makes the access of it, once it is known where that starts and is
//! done and which locks cover it, its [`Span`]. Nothing is copied and no memory is taken.
#![tactic(auto)]

mod buffer;
mod kinds;
mod span;
mod target;
mod touch;

pub use span::Span;
pub use touch::{Touch, touch_at};
