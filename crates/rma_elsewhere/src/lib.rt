//! Calls that a log repeats elsewhere, made from the ones that it repeats.
//!
//! A call that was read before comes again with other particulars: another rank, tag, address or number of bytes, another
//! communicator, window or request. [`sync_elsewhere`] makes such a call of one that accesses no memory, [`access_elsewhere`] of a
//! local access, and [`place_elsewhere`] says where a call that accesses the part of a target is made. The forms by which the lines
//! of calls are known are [`form_of_sync`], [`form_of_local`] and [`form_of_access`].
#![tactic(auto)]

mod access;
mod form;
mod sync_call;

pub use access::{access_elsewhere, place_elsewhere};
pub use form::{form_of_access, form_of_local, form_of_sync};
pub use sync_call::sync_elsewhere;
