//! The buffers of calls: which bytes a call touches in each, and why it may not.
//!
//! A line names the datatypes of its buffers. [`Operands`] are the buffers of a call with the datatypes that their names
//! represent when the line comes, and an [`Operand`] is one of them, or the memory of a local access. [`one_sided_call`] judges
//! the buffers of a call by the rules of one-sided communication and lays them out, and [`local_call`] the memory of an access. A
//! refusal is a [`BufferError`] with the first reason that holds (docs/FORMAT.md, the reasons of a bad line). A call that was
//! judged is made again at another target, displacement and addresses by [`one_sided_elsewhere`], and a local access by
//! [`local_elsewhere`]: neither asks the datatypes.
#![tactic(auto)]

mod element;
mod elsewhere;
mod fault;
mod layouts;
mod local;
mod one_sided;
mod operand;
mod placed;
mod rule;

pub use elsewhere::{local_elsewhere, one_sided_elsewhere};
pub use fault::BufferError;
pub use local::local_call;
pub use one_sided::one_sided_call;
pub use operand::{Operand, Operands};
