//! What the elements of a datatype have in common.
use rma_datatype::Basic;

/// The basic datatype that all elements have.
#[derive(Clone, Copy, Debug, PartialEq, Eq)]
pub enum Component {
    /// There is no element.
    Empty,
    /// Every element has this one.
    One(Basic),
    /// Two elements differ.
    Mixed,
}
