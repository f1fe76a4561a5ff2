//! The runs of which signatures are made.
use rma_datatype::Basic;

/// Equal basic datatypes, one after another.
#[derive(Clone, Copy, Debug, PartialEq, Eq)]
pub struct SigRun {
    /// The datatype of each.
    pub basic: Basic,
    /// How many there are, which is not 0.
    pub count: u64,
}
