//! What returns wait for.
use rma_base::Point;

/// What a return waits for.
#[derive(Clone, Copy)]
pub enum Source {
    /// The entry of a call.
    Entry(Point),
    /// The entries of all members of the meet with this index.
    Meet(usize),
}
