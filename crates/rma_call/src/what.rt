//! What a call does.
use crate::epoch::EpochCall;
use crate::frame::FrameCall;
use crate::local::LocalCall;
use crate::message::MessageCall;
use crate::moving::MovingCall;
use crate::rma::{RmaCall, RmaRef};
use crate::window::WindowCall;

/// What a call does.
#[derive(Debug, Drop)]
pub enum What {
    /// It synchronises, or has a part in what synchronises.
    Sync(SyncCall),
    /// It accesses the part of a target.
    Rma(RmaCall),
    /// It accesses the memory of its rank.
    Local(LocalCall),
}

/// A call that accesses no memory, in the groups of the lines.
#[derive(Debug, Drop)]
pub enum SyncCall {
    /// It declares a communicator, or is a barrier.
    Frame(FrameCall),
    /// It sends or receives a message, or waits for one.
    Message(MessageCall),
    /// It creates or frees a window, or attaches memory to one.
    Window(WindowCall),
    /// It opens, completes or closes an epoch.
    Epoch(EpochCall),
    /// It moves data between the members of a communicator.
    Moving(MovingCall),
}

/// What a call does, where it stands.
#[derive(Clone, Copy, Debug)]
pub enum WhatRef<'a> {
    /// It declares a communicator, or is a barrier.
    Frame(&'a FrameCall),
    /// It sends or receives a message, or waits for one.
    Message(&'a MessageCall),
    /// It creates or frees a window, or attaches memory to one.
    Window(&'a WindowCall),
    /// It opens, completes or closes an epoch.
    Epoch(&'a EpochCall),
    /// It moves data between the members of a communicator.
    Moving(&'a MovingCall),
    /// It accesses the part of a target.
    Rma(RmaRef<'a>),
    /// It accesses the memory of its rank.
    Local(&'a LocalCall),
}
