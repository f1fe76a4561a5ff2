//! The table of the datatypes of one rank.
//!
//! A [`TypeTable`] holds each datatype that a rank ever made under a [`TypeId`], and what its live names represent. It begins with
//! the basic datatypes, `make` adds one, `commit` and `free` change one. Of a datatype it knows the size, bounds and blocks
//! ([`Made`]), the signature as runs of equal basic datatypes ([`SigRun`]), the [`Component`] that all elements have, and the
//! constructor that made it. A refusal is a [`TypeFault`]. Nothing walks the elements: a vector costs the same, however long.
#![tactic(auto)]

mod basic;
mod check;
mod component;
mod fault;
mod id;
pub mod laws;
mod make;
mod member;
mod origin;
mod prefix;
mod sig_run;
mod signature;
mod signature_source;
mod table;

pub use component::Component;
pub use fault::{TypeError, TypeFault};
pub use id::TypeId;
pub use origin::Origin;
pub use rma_typemap::{Blocks, Made};
pub use sig_run::SigRun;
pub use table::TypeTable;
