//! What the calls of a run declare, and who has to make the calls that every member makes (MPI 4.0, "Groups, Contexts,
//! Communicators, and Caching" and "One-Sided Communications").
//!
//! Each rank declares the communicators that it is in, with their ranks, and creates windows, with their attributes. A
//! [`Declaration`] is one such call; [`Declarations`] are those of all ranks, with the first of each name, which the others have
//! to agree with: [`differences`] are the faults of those that do not. [`Members`] answers from them who has to make a call of a
//! [`Kind`](rma_round::Kind): the members of its communicator, or of that of its window. Each name costs one look-up.
#![tactic(auto)]

mod attribute;
mod declaration;
mod difference;
mod first_index;
mod member;

pub use attribute::WindowAttributes;
pub use declaration::{Attributes, Declaration, Declarations, push_declaration};
pub use difference::{differences, push_some};
pub use member::Members;
