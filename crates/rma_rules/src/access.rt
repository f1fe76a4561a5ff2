//! Accesses (MPI 4.0, "One-Sided Communications").
use crate::access_name::AccessName;
use crate::bytes::Bytes;
use crate::kind::Kind;
use crate::lock::LockKey;
use rma_base::{Point, Rank, Site};
use rma_datatype::Basic;
use rma_window::WindowId;
use std::marker::Model;

/// What a call does to the memory of one rank. Contracts see where it starts, in place of the opening.
#[derive(Debug, Drop)]
pub struct Access<'a> {
    /// Its name.
    pub name: AccessName,
    /// Where the program makes its call, if the log says so.
    pub site: Option<&'a Site>,
    /// The number of its call, among the calls of its rank from 0.
    pub call: u32,
    /// The rank whose memory it touches.
    pub memory: Rank,
    /// The bytes that it touches there.
    pub bytes: Bytes<'a>,
    /// What it does.
    pub kind: Kind,
    /// The window through which it does so at a target.
    pub window: Option<WindowId>,
    /// The basic datatype of its elements, where there is one.
    pub element: Option<Basic>,
    /// The entry of the call that opens the epoch at the target, which the access may wait for.
    pub opening: Option<Point>,
    /// The point at which it is done, if it ever is.
    pub done: Option<Point>,
    /// The lock epochs in which it is made.
    pub locks: &'a [LockKey],
}

impl<'a> Model for Access<'a> {
    ghost use Rattle.std.specs.Prelude.{◌<◌, ◌^◌, option_map};
    ghost use Rattle.rma_rules.specs.Access.{Access, starts_of};

    ghost Value = { Access };

    ghost view = { λ own. record { name = own.name; site = option_map (λ site. site.now) own.site; call = own.call; memory = own.memory; runs = own.bytes; kind = own.kind; window = own.window; element = own.element; starts = starts_of own.name.rank own.call own.opening; done = own.done; locks = own.locks.now } };

    ghost invariant = { λ own. own.call < 2 ^ 31 };
}
