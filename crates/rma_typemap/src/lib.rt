//! Typemaps by arithmetic: what a constructor makes of its old datatypes, without a walk over the elements.
//!
//! A typemap is a list of elements and markers, which may be long; a [`Summary`] is the few numbers of it that MPI asks for.
//! [`build`] gives the summary of a constructor's typemap from that of its old one, [`append_block`] that of a struct, a
//! member at a time; [`exceeds`], [`all_fit`] and [`too_large`] say beforehand whether a constructor is in order. [`Made`] is
//! what a user sees of a datatype. The typemaps themselves stand in `specs/` alone.
#![tactic(auto)]

mod array;
mod block_list;
mod blocks;
mod bound;
mod constructor;
mod copy;
mod count;
mod made;
mod span;
mod summary;

pub use array::{all_fit, too_large};
pub use blocks::Blocks;
pub use constructor::build;
pub use copy::{append_block, copies, wide};
pub use count::exceeds;
pub use made::Made;
pub use span::Span;
pub use summary::Summary;
