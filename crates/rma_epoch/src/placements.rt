//! The epochs of a rank, and the accesses that stand in them, as they are kept.
ghost use Rattle.std.specs.Prelude.{◌≡◌, ◌++◌, [], map, IfOk, OnOk, true, slice_get, Some, None, false, option_map, IfSome, ◌<◌, length, ℕ};
ghost use Rattle.std.specs.List.{cons_option};
ghost use Rattle.std.specs.Option.{option_and_then, option_map_or};
ghost use Rattle.rma_call.specs.Call.{what_of};
ghost use Rattle.rma_call.specs.declared.what.What.TheVariants.{Sync};
ghost use Rattle.rma_call.specs.declared.what.SyncCall.TheVariants as sync;
ghost use Rattle.rma_epoch.specs.Table.{Ascend, InOrder, epoch_at, index_in, is_opened_by, opened_on};
ghost use Rattle.rma_epoch.specs.inside.Epochs.{closed_with, epochs_with, index_of_opening, placed_with};

use crate::epoch::{Epoch, Placed};
use crate::opened::opened;
use rma_base::Memory;
use rma_call::{EpochCall, WhatRef};
use rma_open::Opening;
use rma_window::WindowId;
use std::alloc::Global;

/// In which epoch a call stands, and what it closes.
#[derive(Clone, Copy, Debug)]
pub(crate) struct Placement {
    /// The epoch in which it stands, where it is an access to a target.
    pub opening: Option<Opening>,
    /// The number of the call that opened what it closes.
    pub closes: Option<u32>,
}

impl Placement {
    /// A call that is on no window.
    pub(crate) fn none() -> Placement
        ensures { result ≡ record { opening = None; closes = None } }
    {
        Placement {
            opening: None,
            closes: None,
        }
    }
}

/// The epochs in which a call stands and which it closes.
#[derive(Clone, Copy, Debug)]
pub(crate) struct Indices {
    /// The index of the epoch in which it stands, where it is an access to a target.
    pub epoch: Option<u32>,
    /// The index of the one that it closes.
    pub closes: Option<u32>,
}

/// The epochs of a rank, and the accesses that stand in them.
#[derive(Debug, Drop)]
pub(crate) struct Placements {
    /// The epochs, in the order of their opening.
    epochs: Vec<Epoch>,
    /// The accesses to a target, in their order.
    placed: Vec<Placed>,
    /// The index of the epoch that was asked for last: the next access mostly stands in the same one.
    last: usize,
}

impl Placements {
    /// No calls.
    pub(crate) fn new(alloc: Global) -> Placements
        ensures epochs { result.epochs.items ≡ [] }
        ensures placed { result.placed.items ≡ [] }
    {
        Placements {
            epochs: Vec::new(alloc),
            placed: Vec::new(alloc),
            last: 0,
        }
    }

    /// Adds the call of this number, which is the next one and on this window, if that is one of the run.
    pub(crate) fn add(
        &mut self,
        number: u32,
        what: WhatRef<'_>,
        window: Option<WindowId>,
        placement: Placement,
    ) -> Result<Indices, Memory>
        ensures epochs { OnOk result (Ascend self.old.epochs.items → self.new.epochs.items ≡ epochs_with number (what_of what.entry) window placement.closes self.old.epochs.items) }
        ensures placed { OnOk result (Ascend self.old.epochs.items → self.new.placed.items ≡ placed_with number (index_of_opening self.old.epochs.items placement) self.old.placed.items) }
        ensures indices { IfOk result (λ indices. Ascend self.old.epochs.items → indices ≡ record { epoch = index_of_opening self.old.epochs.items placement; closes = option_and_then (index_in self.old.epochs.items) placement.closes }) }
    {
        let epoch = self.place(number, placement.opening)?;
        let closes = self.close(number, placement.closes)?;
        self.open(number, what, window)?;
        Ok(Indices { epoch, closes })
    }

    /// Keeps in which epoch the access of this number stands, and answers its index.
    fn place(&mut self, number: u32, opening: Option<Opening>) -> Result<Option<u32>, Memory>
        ensures epochs { OnOk result (self.new.epochs.items ≡ self.old.epochs.items) }
        ensures placed { IfOk result (λ index. self.new.placed.items ≡ placed_with number index self.old.placed.items) }
        ensures index { IfOk result (λ index. Ascend self.old.epochs.items → index ≡ option_and_then (λ opening. index_in self.old.epochs.items opening.opener) opening) }
    {
        let Some(opening) = opening else {
            return Ok(None);
        };
        let Some(epoch) = self.index_of(opening.opener)? else {
            return Ok(None);
        };
        self.placed.push(Placed {
            call: number,
            epoch,
        })?;
        Ok(Some(epoch))
    }

    /// Keeps that the call of this number closes what the call of the number of the opener opened, and answers its index.
    fn close(&mut self, number: u32, opener: Option<u32>) -> Result<Option<u32>, Memory>
        ensures epochs { OnOk result (Ascend self.old.epochs.items → self.new.epochs.items ≡ map (closed_with opener number) self.old.epochs.items) }
        ensures placed { OnOk result (self.new.placed.items ≡ self.old.placed.items) }
        ensures index { IfOk result (λ index. Ascend self.old.epochs.items → index ≡ option_and_then (index_in self.old.epochs.items) opener) }
    {
        let Some(opener) = opener else {
            return Ok(None);
        };
        let Some(index) = self.index_of(opener)? else {
            return Ok(None);
        };
        close_at(&mut self.epochs, index as usize, number);
        Ok(Some(index))
    }

    /// Keeps the epoch that the call of this number opens, if it opens one.
    fn open(
        &mut self,
        number: u32,
        what: WhatRef<'_>,
        window: Option<WindowId>,
    ) -> Result<(), Memory>
        ensures epochs { OnOk result (self.new.epochs.items ≡ self.old.epochs.items ++ cons_option (option_and_then (opened_on number (what_of what.entry)) window) []) }
        ensures placed { OnOk result (self.new.placed.items ≡ self.old.placed.items) }
    {
        match window {
            Some(window) => self.open_on(number, what, window),
            None => Ok(()),
        }
    }

    /// The same on a window of the run.
    fn open_on(&mut self, number: u32, what: WhatRef<'_>, window: WindowId) -> Result<(), Memory>
        ensures epochs { OnOk result (self.new.epochs.items ≡ self.old.epochs.items ++ cons_option (opened_on number (what_of what.entry) window) []) }
        ensures placed { OnOk result (self.new.placed.items ≡ self.old.placed.items) }
    {
        match what {
            WhatRef::Epoch(call) => self.open_by(number, call, window),
            WhatRef::Rma(_) => Ok(()),
            WhatRef::Window(_) => Ok(()),
            WhatRef::Frame(_) => Ok(()),
            WhatRef::Message(_) => Ok(()),
            WhatRef::Moving(_) => Ok(()),
            WhatRef::Local(_) => Ok(()),
        }
    }

    /// The same for a call that opens, completes or closes an epoch.
    fn open_by(&mut self, number: u32, call: &EpochCall, window: WindowId) -> Result<(), Memory>
        ensures epochs { OnOk result (self.new.epochs.items ≡ self.old.epochs.items ++ cons_option (opened_on number (Sync (sync.Epoch call.now)) window) []) }
        ensures placed { OnOk result (self.new.placed.items ≡ self.old.placed.items) }
    {
        if let Some(epoch) = opened(number, call, window)? {
            self.last = self.epochs.len();
            self.epochs.push(epoch)?;
        }
        Ok(())
    }

    /// The index of the epoch that the call of this number opens, where there is one.
    fn index_of(&mut self, opener: u32) -> Result<Option<u32>, Memory>
        ensures index { IfOk result (λ index. Ascend self.old.epochs.items → index ≡ index_in self.old.epochs.items opener) }
        ensures within { IfOk result (λ index. IfSome index (λ i. i < length self.old.epochs.items)) }
        ensures epochs { OnOk result (self.new.epochs.items ≡ self.old.epochs.items) }
        ensures placed { OnOk result (self.new.placed.items ≡ self.old.placed.items) }
    {
        let Some(index) = index_from(&self.epochs, self.last, opener) else {
            return Ok(None);
        };
        self.last = index;
        match u32::try_from(index) {
            Ok(index) => Ok(Some(index)),
            Err(_) => Err(Memory),
        }
    }

    /// The epochs, in the order of their opening.
    pub(crate) fn epochs(&self) -> &[Epoch]
        ensures { result.now ≡ self.now.epochs.items }
    {
        &self.epochs
    }

    /// The accesses to a target, in their order.
    pub(crate) fn placed(&self) -> &[Placed]
        ensures { result.now ≡ self.now.placed.items }
    {
        &self.placed
    }
}

/// The index of the epoch that the call of this number opens, where there is one. It may be this one.
fn index_from(epochs: &[Epoch], last: usize, opener: u32) -> Option<usize>
    ensures index { Ascend epochs.now → result ≡ index_in epochs.now opener }
    ensures within { IfSome result (λ i. i < length epochs.now) }
{
    if is_at(epochs, last, opener) {
        return Some(last);
    }
    epochs
        .binary_search_by_key(&opener, |epoch| epoch.opener)
        .ok()
}

/// Whether the epoch at the index is the one that the call of this number opens.
fn is_at(epochs: &[Epoch], index: usize, opener: u32) -> bool
    ensures { result ≡ option_map_or (is_opened_by opener) (slice_get epochs.now index) false }
{
    match epochs.get(index) {
        Some(epoch) => epoch.opener == opener,
        None => false,
    }
}

/// Notes that the call of this number closes the epoch at the index.
fn close_at(epochs: &mut [Epoch], index: usize, number: u32)
    requires { index < length epochs.old }
    ensures { (opener : ℕ) → Ascend epochs.old → index_in epochs.old opener ≡ Some index → epochs.new ≡ map (closed_with (Some opener) number) epochs.old }
{
    let epoch = &mut epochs[index];
    epoch.close = Some(number);
}

/// The index of the epoch in which the call of this number stands, among these accesses.
pub(crate) fn epoch_of(placed: &[Placed], call: u32) -> Option<u32>
    ensures { InOrder placed.now → result ≡ epoch_at placed.now call }
{
    match placed.binary_search_by_key(&call, |placed| placed.call) {
        Ok(place) => Some(placed[place].epoch),
        Err(_) => None,
    }
}
