//! Where the datatypes of a table come from.
use crate::id::TypeId;
use rma_base::Sequence;
use rma_datatype::{Basic, Make};

/// Where a datatype comes from.
#[derive(Debug, Drop)]
pub enum Origin {
    /// It is a basic one.
    Basic(Basic),
    /// A constructor made it of the datatypes that its old names represented.
    Derived {
        /// The constructor, with its arguments.
        constructor: Make,
        /// The datatypes of its old names, in their order.
        old_types: Sequence<TypeId>,
    },
}
