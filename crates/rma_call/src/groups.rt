//! Tables of what calls do, one for each group of calls.
ghost use Rattle.std.specs.Prelude.{◌≡◌, ◌+◌, ◌<◌, ◌^◌, ◌++◌, ◌∷◌, [], length, IfOk, OnOk, OnErr};
ghost use Rattle.rma_call.specs.Call.{what_of};
ghost use Rattle.rma_call.specs.Rma.{access_of, placed};
ghost use Rattle.rma_call.specs.declared.groups.Place.TheVariants as Place;
ghost use Rattle.rma_call.specs.declared.what.What.TheVariants as what;
ghost use Rattle.rma_call.specs.inside.Groups.{Grows, IsThere, what_at, rma_at, placed_at, len_of};

use crate::epoch::EpochCall;
use crate::frame::FrameCall;
use crate::group::Group;
use crate::local::LocalCall;
use crate::message::MessageCall;
use crate::moving::MovingCall;
use crate::rma::{Placement, RmaCall, RmaRef};
use crate::what::{SyncCall, What, WhatRef};
use crate::window::WindowCall;
use rma_base::Memory;
use std::alloc::Global;

/// What calls do, in a table for each group: what a call of one group does takes less room than that of another.
#[derive(Debug, Drop)]
pub(crate) struct Groups {
    frames: Vec<FrameCall>,
    messages: Vec<MessageCall>,
    windows: Vec<WindowCall>,
    epochs: Vec<EpochCall>,
    movings: Vec<MovingCall>,
    rmas: Vec<RmaCall>,
    placed: Vec<PlacedRma>,
    locals: Vec<LocalCall>,
}

/// An access that another makes elsewhere.
#[derive(Clone, Copy, Debug)]
struct PlacedRma {
    /// The index of the other in its table.
    call: u32,
    /// Where it is made.
    place: Placement,
}

/// Where it stands what a call does: the group, and the index in its table.
#[derive(Clone, Copy, Debug)]
pub(crate) enum Place {
    Frame(u32),
    Message(u32),
    Window(u32),
    Epoch(u32),
    Moving(u32),
    Rma(u32),
    PlacedRma(u32),
    Local(u32),
}

impl Groups {
    /// Empty tables.
    pub(crate) fn new(alloc: Global) -> Groups {
        Groups {
            frames: Vec::new(alloc),
            messages: Vec::new(alloc),
            windows: Vec::new(alloc),
            epochs: Vec::new(alloc),
            movings: Vec::new(alloc),
            rmas: Vec::new(alloc),
            placed: Vec::new(alloc),
            locals: Vec::new(alloc),
        }
    }

    /// How much stands in the table of the group.
    pub(crate) fn len_of(&self, group: Group) -> usize
        ensures { result ≡ len_of self.now group }
    {
        match group {
            Group::Frame => self.frames.len(),
            Group::Message => self.messages.len(),
            Group::Window => self.windows.len(),
            Group::Epoch => self.epochs.len(),
            Group::Moving => self.movings.len(),
            Group::Rma => self.rmas.len(),
            Group::Local => self.locals.len(),
        }
    }

    /// What stands at the place.
    #[inline]
    pub(crate) fn get(&self, place: Place) -> WhatRef<'_>
        requires { IsThere self.now place }
        ensures { what_of result ≡ what_at self.now place }
    {
        match place {
            Place::Frame(index) => WhatRef::Frame(&self.frames[index as usize]),
            Place::Message(index) => WhatRef::Message(&self.messages[index as usize]),
            Place::Window(index) => WhatRef::Window(&self.windows[index as usize]),
            Place::Epoch(index) => WhatRef::Epoch(&self.epochs[index as usize]),
            Place::Moving(index) => WhatRef::Moving(&self.movings[index as usize]),
            Place::Rma(index) => WhatRef::Rma(RmaRef::Stated(&self.rmas[index as usize])),
            Place::PlacedRma(index) => WhatRef::Rma(self.placed(index)),
            Place::Local(index) => WhatRef::Local(&self.locals[index as usize]),
        }
    }

    /// The access of this index that another makes elsewhere.
    #[inline]
    fn placed(&self, index: u32) -> RmaRef<'_>
        requires { IsThere self.now (Place.PlacedRma index) }
        ensures { access_of result ≡ placed_at self.now index }
    {
        let own = &self.placed[index as usize];
        RmaRef::Placed(&self.rmas[own.call as usize], &own.place)
    }

    /// Puts an access at the end of its table that the access of this index makes elsewhere.
    ///
    /// # Errors
    ///
    /// `Memory` also where the table is full.
    pub(crate) fn put_placed(&mut self, call: u32, place: &Placement) -> Result<Place, Memory>
        requires { IsThere self.old (Place.Rma call) }
        ensures there { IfOk result (λ there. IsThere self.new there) }
        ensures is { IfOk result (λ there. what_at self.new there ≡ what.Rma (placed (rma_at self.old call) place.now)) }
        ensures grows { Grows self.old self.new }
    {
        let place = *place;
        Ok(Place::PlacedRma(push(&mut self.placed, PlacedRma { call, place })?))
    }

    /// Puts what a call does that accesses no memory at the end of the table of its group.
    ///
    /// # Errors
    ///
    /// `Memory` also where the table is full.
    pub(crate) fn put_sync(&mut self, call: SyncCall) -> Result<Place, Memory>
        ensures there { IfOk result (λ place. IsThere self.new place) }
        ensures is { IfOk result (λ place. what_at self.new place ≡ what.Sync call) }
        ensures grows { Grows self.old self.new }
    {
        match call {
            SyncCall::Frame(call) => Ok(Place::Frame(push(&mut self.frames, call)?)),
            SyncCall::Message(call) => Ok(Place::Message(push(&mut self.messages, call)?)),
            SyncCall::Window(call) => Ok(Place::Window(push(&mut self.windows, call)?)),
            SyncCall::Epoch(call) => Ok(Place::Epoch(push(&mut self.epochs, call)?)),
            SyncCall::Moving(call) => Ok(Place::Moving(push(&mut self.movings, call)?)),
        }
    }

    /// Puts what a call does at the end of the table of its group.
    ///
    /// # Errors
    ///
    /// `Memory` also where the table is full.
    pub(crate) fn put(&mut self, what: What) -> Result<Place, Memory>
        ensures there { IfOk result (λ place. IsThere self.new place) }
        ensures is { IfOk result (λ place. what_at self.new place ≡ what) }
        ensures grows { Grows self.old self.new }
    {
        match what {
            What::Sync(call) => self.put_sync(call),
            What::Rma(call) => Ok(Place::Rma(push(&mut self.rmas, call)?)),
            What::Local(call) => Ok(Place::Local(push(&mut self.locals, call)?)),
        }
    }
}

/// Puts a value at the end of a table, and answers its index.
fn push<T: Drop>(table: &mut Vec<T>, value: T) -> Result<u32, Memory>
    ensures index { IfOk result (λ index. index ≡ length table.old.items) }
    ensures ok { OnOk result (table.new.items ≡ table.old.items ++ value ∷ []) }
    ensures err { OnErr result (table.new.items ≡ table.old.items) }
{
    let index = next_number(table.len())?;
    table.push(value)?;
    Ok(index)
}

/// The number of the next value of a table that has so many.
pub(crate) fn next_number(len: usize) -> Result<u32, Memory>
    ensures number { IfOk result (λ number. number ≡ len) }
    ensures fits { OnOk result (len + 1 < 2 ^ 32) }
{
    if len < u32::MAX as usize {
        Ok(len as u32)
    } else {
        Err(Memory)
    }
}
