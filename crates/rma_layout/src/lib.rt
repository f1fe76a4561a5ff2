//! What a buffer of a datatype covers: the bytes of the entries that a call touches, without a walk over them.
//!
//! [`place`] gives the [`Layout`](rma_bytes::Layout) of copies of a datatype at an address, or the [`LayoutFault`] for which it
//! refuses; a [`Space`] says which addresses a buffer may have. What is touched is written as blocks of bytes in the order of
//! the entries: a datatype whose elements lie side by side is one block, and of several copies of a datatype the first is
//! written and the others are copied from it, each moved. A count costs nothing where copies lie side by side, and a nested
//! datatype costs as much as it has blocks.
#![tactic(auto)]

mod basic;
mod block;
mod distance;
mod ends;
mod expand;
mod fault;
mod frame;
mod known_layout;
mod layout_table;
mod output;
mod overlap;
mod placement;
mod prefix;
mod space;
mod step;
mod subarray;

pub use fault::{LayoutError, LayoutFault};
pub use layout_table::LayoutTable;
pub use placement::place;
pub use space::Space;
