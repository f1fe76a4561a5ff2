//! What the calls of one round agree on (MPI 4.0, "Collective Communication" and "One-Sided Communications").
//!
//! A call that every member has to make is of a [`Kind`](rma_round::Kind): a barrier or a window's creation, a free, a fence, or a
//! call that moves data. The k-th calls of a kind of the members of a name are one round, and agree in their [`Arguments`]. The
//! [`First`] call of a round is the one that the others are compared with. [`are_regular`] asks the tables of the rounds whether
//! every member makes each call of each round and all agree, and looks at no call again where that is so.
#![tactic(auto)]

mod agreement;
mod argument;
mod first;
mod place;

pub use agreement::are_regular;
pub use argument::{Arguments, Movement, Transfer};
pub use first::First;
