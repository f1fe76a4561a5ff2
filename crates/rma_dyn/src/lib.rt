//! Memory of dynamic windows that is not attached where it has to be (MPI 4.0, "One-Sided Communications", dynamically attached
//! memory).
//!
//! A rank attaches memory to a dynamic window before others access it there, and detaches it once they are done. [`region_faults`]
//! finds the accesses whose memory is not surely attached before their call, those whose memory may be detached before they are done,
//! the detaches of memory that is not attached, and the attaches that meet memory that is. The attaches of a run are sorted by rank,
//! window, address and call, so those that hold some bytes are found by a search.
#![tactic(auto)]

mod access;
mod all;
mod attaches;
mod bounds;
mod change;
mod changes;
mod detaches;
mod fault;
pub mod laws;
mod live;
mod order;
mod overlap;
mod reached;
mod reason;
mod regions;
mod search;
mod sorted;

pub use all::region_faults;
pub use change::Change;
pub use fault::RegionFault;
pub use reason::RegionReason;
