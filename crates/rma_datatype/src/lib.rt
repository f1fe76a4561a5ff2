//! Datatypes as a log states them (MPI 4.0, "Datatypes").
//!
//! A [`Basic`] is one of the predefined datatypes of C, with its size in bytes and its [`Class`]; an [`Op`] is an operation of
//! the accumulate calls, with the classes that it is allowed for; and a [`Make`] is one of the nine constructors of derived
//! datatypes with its arguments, as its line states them. What a constructor's typemap is stands in `rma_typemap`.
#![tactic(auto)]

mod basic;
mod make;
mod operation;

pub use basic::{Basic, Class};
pub use make::{Block, ByteBlock, Dimension, Make, Member, Order};
pub use operation::{Op, can_compare_and_swap};
