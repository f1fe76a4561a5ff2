//! The links between the points of a run, and the order that they give it.
//!
//! Each call of a rank has two points, its entry and its return. [`Links`] say which entries come before returns of other
//! ranks: an [`Edge`] leads from one entry to one return, as from a send to its receive; a [`Meet`] has a [`Member`] for each
//! rank that takes part in it, as in a barrier, and stands for an edge from the entry of each member to the return of each
//! other one. Those edges are never written out, so a meet takes room for its members alone.
//!
//! The order of the points is happens-before: the rank's own order and the links, reflexive and transitive. A run is
//! possible where no two different points are each before the other. `specs/Order.antt` has both.
#![tactic(auto)]

mod edge;
mod links;
mod meet;

pub use edge::Edge;
pub use links::Links;
pub use meet::{Meet, Member};
