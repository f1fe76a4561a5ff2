//! How the messages of a run match (MPI 4.0, "Point-to-Point Communication").
//!
//! [`RankMessages`] takes the calls of one rank, one at a time, and keeps its sends and its receives. [`Messages`] are those of
//! all ranks, each as an [`End`] of a message: the k-th send of a [`Key`], which is the sender, the receiver, the communicator
//! and the tag, matches the k-th receive of that key, in the order in which receives are posted. A nonblocking receive is
//! posted by its own call; its source and its tag are those of the message that its wait got.
//!
//! The messages of a run have two answers: the ends that nothing matches, as faults, and an edge for each message, from the
//! entry of its send to the return of the call that completes its receive. [`RunMessages`] has both, and where each end has a
//! match no end is made: a send is a number in the queue of its key, and what calls do is looked up once for each rank.
//!
//! [`LiveMessages`] takes one call of any rank at a time, and answers for a call that completes a receive where its message
//! comes from, as soon as the calls that are taken settle that.
#![tactic(auto)]

mod comm_receives;
mod edge;
mod end;
mod fault;
mod key;
pub mod laws;
mod live;
mod matched;
mod messages;
mod posted;
mod queue;
mod rank_messages;
mod rank_receives;
mod receive;
mod run_messages;
mod sends;
mod source;

pub use end::End;
pub use key::Key;
pub use live::LiveMessages;
pub use messages::Messages;
pub use rank_messages::RankMessages;
pub use receive::{Completion, Receive};
pub use run_messages::RunMessages;
pub use source::MessageSource;
