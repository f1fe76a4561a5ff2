//! What a walk goes over.
use rma_link::Links;

/// A run: how many calls each rank makes, and what comes before what.
#[derive(Clone, Copy)]
pub(crate) struct Run<'a> {
    /// By rank, the number of its calls.
    pub(crate) lens: &'a [u32],
    /// The links between the calls.
    pub(crate) links: &'a Links,
}
