//! The calls of a run, and what is wrong with how they match.
//!
//! What a call does stands here once, for the lines that state it and for the passes that judge it: a [`What`], in the groups
//! of the lines of the log. [`RankCalls`] are the calls of one rank: a [`CallList`], whose calls are read as [`CallRef`]s. A call
//! takes 16 bytes there, since what many calls do and their sites are stated once. An access that another makes elsewhere is
//! stated by its [`Placement`] alone, and read as an [`RmaRef`] as any other.
//!
//! A [`MatchFault`] is a call that the calls of other ranks do not match.
#![tactic(auto)]

mod assertion;
mod call_list;
mod entries;
mod epoch;
mod frame;
mod group;
mod groups;
mod local;
mod match_fault;
mod message;
mod moving;
mod rank_calls;
mod rma;
mod what;
mod window;

pub use assertion::{Assertion, Assertions};
pub use call_list::{CallList, CallRef};
pub use epoch::{EpochCall, LockKind};
pub use frame::FrameCall;
pub use group::Group;
pub use local::{LocalAccess, LocalCall};
pub use match_fault::MatchFault;
pub use message::{MessageCall, Received};
pub use moving::MovingCall;
pub use rank_calls::RankCalls;
pub use rma::{Placement, RmaCall, RmaKind, RmaRef};
pub use what::{SyncCall, What, WhatRef};
pub use window::WindowCall;
