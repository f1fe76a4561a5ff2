//! Which events of the log of one rank are good, by those before them.
//!
//! A [`Book`] takes the events of a log in their order, and judges each: a header, the end, a line of a datatype, or a call by
//! what it does. It answers [`Judged`], or [`JudgedAccess`] of a call that accesses memory: why the event is bad, or the number of
//! the request of a good one. A book keeps names in use, requests that are pending and datatypes, and no events. What a call says
//! of names and ranks is taken from it in [`naming`], the one place where the forms of calls are told apart.
//!
//! [`naming`]: naming.rt
#![tactic(auto)]

mod book;
mod names;
mod naming;
mod requests;

pub use book::{Book, Judged, JudgedAccess};
pub use names::{Pending, WindowState};
