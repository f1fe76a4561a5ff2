//! The rounds of the calls that every member of a communicator or a window has to make, and the links that they give (MPI 4.0,
//! "Collective Communication" and "One-Sided Communications").
//!
//! Such a call is of a [`Kind`] and on a name: barriers and creations of windows on a communicator, calls that free a window,
//! fences of a window, and calls that move data on a communicator. The k-th calls of a kind on a name, of all ranks that make
//! so many, are one round.
//!
//! [`Rounds`] takes the calls of the ranks one at a time, in any order of the ranks, or those of whole logs at once. It answers
//! the call of another rank that is of the round of a call. A call that is taken alone costs a look-up in a table by its name and
//! one by its rank.
//!
//! Who orders a run asks for its links. [`Rounds::push_edges`] appends the edges of data that moves from a root or to it, each between
//! the root's call of a round and that of another rank. [`Rounds::push_meets`] appends a meet for each round of which a call waits
//! for all its calls. [`Rounds::are_in_step`] tells whether the calls of each round have one number, so that their numbers alone
//! order them and no meet has to be made; where it says no, some two ranks make other calls.
//!
//! The rounds of a kind are read name by name: [`KindRounds`] has the names, [`NameRounds`] the ranks that make calls on one name,
//! and [`RankRounds`] the calls of one of those ranks. So all rounds are gone through with no look-up. A name that is known is
//! found by one.
#![tactic(auto)]

mod edge;
mod kind;
mod kind_rounds;
pub mod laws;
mod link;
mod meet;
mod name_rounds;
mod own_calls;
mod rounds;
mod step;

pub use edge::{Rooted, rooted_of};
pub use kind::{Kind, moved_on, named};
pub use kind_rounds::KindRounds;
pub use meet::waits_for_all;
pub use name_rounds::{NameRounds, RankRounds};
pub use rounds::Rounds;
