//! The epochs of one rank (MPI 4.0, "One-Sided Communications").
//!
//! A call on a window is allowed where the calls before it left the right epochs open there. [`LiveEpochs`] takes the calls of a
//! rank one at a time up to the first that stands in no epoch which allows it, and answers why. Of the calls taken, which are the
//! sound ones, it keeps each [`Epoch`], in the order of their opening, and for each access to a target the index of the one in
//! which it stands, as [`Placed`]. [`place_calls`] does so with a whole log, and answers the [`EpochTable`] of its sound calls
//! beside the first fault, an [`EpochFault`].
//!
//! A call takes constant work, whatever is open and however many runs it touches, but for the ranks of its own group. So does
//! each question, but that an epoch is found among all by a bisection where it is not the one that was asked for last. The window
//! of a call that is taken alone is compared with that of the call before, and looked up by its name among those of the rank
//! where it is another. In a whole log that is done once for all calls that do the same, and so is what no other call changes:
//! then a call finds its window by an index, and no part is looked up. What calls share that do the same is kept, as a
//! [`PartTable`]: their window, and the part of their target.
#![tactic(auto)]

mod epoch;
mod fault;
pub mod laws;
mod live;
mod open_windows;
mod opened;
mod parts;
mod placements;
mod table;
mod whole;

pub use epoch::{Epoch, Placed, Targets};
pub use fault::EpochFault;
pub use live::{LiveEpochs, Taken};
pub use parts::PartTable;
pub use rma_open::EpochKind;
pub use table::{EpochOutcome, EpochTable};
pub use whole::place_calls;
