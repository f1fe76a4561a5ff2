//! What is known of a typemap.

/// The size, bounds and blocks of a typemap.
#[derive(Clone, Copy, Debug, PartialEq, Eq)]
pub struct Made {
    /// The bytes of all elements together.
    pub size: u64,
    /// The lower bound.
    pub lb: i64,
    /// The upper bound.
    pub ub: i64,
    /// The distance of one copy from the next.
    pub extent: i64,
    /// The number of elements.
    pub entries: u64,
    /// The blocks of elements, counted in order.
    pub blocks: u64,
    /// Whether the elements in order form one block from the lower to the upper bound, of the size of the extent.
    pub solid: bool,
}
