//! The epochs of a rank, as its calls come.
ghost use Rattle.std.specs.Prelude.{◌≡◌, [], List, None, length, IfOk, OnOk};
ghost use Rattle.std.specs.List.{list_any};
ghost use Rattle.std.specs.Option.{option_and_then};
ghost use Rattle.rma_call.specs.Call.{Call, call_of};
ghost use Rattle.rma_window.specs.Windows.{Window};
ghost use Rattle.rma_open.specs.Reason.{reason_at};
ghost use Rattle.rma_epoch.specs.Table.{InOrder, epoch_at, epochs_of, placed_of, taken_with};
ghost use Rattle.rma_epoch.specs.Fault.{leaves_open};
ghost use Rattle.rma_epoch.specs.inside.Live.{HasEpochs, Represents, taken_of};
ghost use Rattle.rma_epoch.specs.inside.Windows.{IsOpenAfter, IsPlaceOf, names_in};

use crate::epoch::{Epoch, Placed};
use crate::open_windows::{OpenWindows, Place};
use crate::parts::PartTable;
use crate::placements::{Placements, epoch_of};
use crate::table::EpochTable;
use rma_base::{EpochReason, Memory};
use rma_call::CallRef;
use rma_window::{WindowId, Windows};
use std::alloc::Global;

/// The epochs of a rank, as its calls come.
#[derive(Drop)]
pub struct LiveEpochs {
    /// What the calls taken leave open on each window.
    windows: OpenWindows,
    /// How many calls are taken.
    taken: u32,
    /// The epochs that they open, and those in which they stand.
    placements: Placements,
}

/// What comes of a call.
#[derive(Clone, Copy, Debug, PartialEq, Eq)]
pub struct Taken {
    /// Why it stands in no epoch that allows it; then it is not taken.
    pub reason: Option<EpochReason>,
    /// The index of the epoch in which it stands, where it is taken and is an access to a target.
    pub epoch: Option<u32>,
    /// The index of the epoch that it closes, where it is taken and closes one.
    pub closes: Option<u32>,
}

impl LiveEpochs {
    /// No calls.
    pub fn new(alloc: Global) -> LiveEpochs
        ensures nothing { Represents [] result }
        ensures no_epochs { (windows : List Window) → HasEpochs windows [] result }
    {
        LiveEpochs::on(alloc, OpenWindows::new(alloc))
    }

    /// No calls, where windows may have places but nothing is open on any.
    pub(crate) fn on(alloc: Global, windows: OpenWindows) -> LiveEpochs
        requires { IsOpenAfter [] windows }
        ensures nothing { Represents [] result }
        ensures no_epochs { (windows : List Window) → HasEpochs windows [] result }
        ensures names { names_in result.windows ≡ names_in windows }
    {
        LiveEpochs {
            windows,
            taken: 0,
            placements: Placements::new(alloc),
        }
    }

    /// Takes the next call of the rank, unless it stands in no epoch that allows it: then it answers why, and the call is not
    /// taken. Of a call that is taken it tells the epoch in which it stands and the one that it closes.
    ///
    /// # Errors
    ///
    /// `Memory`, and then nothing is said of what is kept.
    pub fn take(&mut self, windows: &Windows, call: CallRef<'_>) -> Result<Taken, Memory>
        ensures reason { IfOk result (λ taken. (calls : List Call) → Represents calls self.old → taken.reason ≡ reason_at windows.now calls (call_of call.entry)) }
        ensures taken { IfOk result (λ taken. (calls : List Call) → Represents calls self.old → Represents (taken_with taken.reason (call_of call.entry) calls) self.new) }
        ensures epochs { IfOk result (λ taken. (calls : List Call) → Represents calls self.old → HasEpochs windows.now calls self.old → HasEpochs windows.now (taken_with taken.reason (call_of call.entry) calls) self.new) }
        ensures indices { IfOk result (λ taken. (calls : List Call) → Represents calls self.old → HasEpochs windows.now calls self.old → taken ≡ taken_of windows.now calls (call_of call.entry)) }
    {
        let place = self.windows.place(windows, call.what)?;
        self.take_at(windows, place, call)
    }

    /// The same where the window of the call has this place.
    pub(crate) fn take_at(
        &mut self,
        windows: &Windows,
        place: Option<Place>,
        call: CallRef<'_>,
    ) -> Result<Taken, Memory>
        requires { IsPlaceOf windows.now (names_in self.old.windows) (call_of call).what place }
        ensures reason { IfOk result (λ taken. (calls : List Call) → Represents calls self.old → taken.reason ≡ reason_at windows.now calls (call_of call.entry)) }
        ensures taken { IfOk result (λ taken. (calls : List Call) → Represents calls self.old → Represents (taken_with taken.reason (call_of call.entry) calls) self.new) }
        ensures epochs { IfOk result (λ taken. (calls : List Call) → Represents calls self.old → HasEpochs windows.now calls self.old → HasEpochs windows.now (taken_with taken.reason (call_of call.entry) calls) self.new) }
        ensures indices { IfOk result (λ taken. (calls : List Call) → Represents calls self.old → HasEpochs windows.now calls self.old → taken ≡ taken_of windows.now calls (call_of call.entry)) }
        ensures names { OnOk result (names_in self.new.windows ≡ names_in self.old.windows) }
    {
        let number = self.taken;
        let Some(next) = number.checked_add(1) else {
            return Err(Memory);
        };
        let step = self.windows.take(place, number, call)?;
        if step.reason.is_some() {
            return Ok(refused(step.reason));
        }
        let window = window_of(place);
        let indices = self
            .placements
            .add(number, call.what, window, step.placement)?;
        self.taken = next;
        Ok(Taken {
            reason: None,
            epoch: indices.epoch,
            closes: indices.closes,
        })
    }

    /// How many calls are taken.
    pub fn taken(&self) -> u32
        ensures { (calls : List Call) → Represents calls self.now → result ≡ length calls }
    {
        self.taken
    }

    /// The epochs of the calls taken, in the order of their opening.
    pub fn epochs(&self) -> &[Epoch]
        ensures { (windows : List Window) (calls : List Call) → HasEpochs windows calls self.now → result.now ≡ epochs_of windows calls }
    {
        self.placements.epochs()
    }

    /// The accesses to a target among the calls taken, in their order.
    pub fn placed(&self) -> &[Placed]
        ensures { (windows : List Window) (calls : List Call) → HasEpochs windows calls self.now → result.now ≡ placed_of windows calls }
    {
        self.placements.placed()
    }

    /// The index of the epoch in which the call of this number stands, where it is taken and is an access to a target.
    pub fn epoch_of(&self, call: u32) -> Option<u32>
        ensures { (windows : List Window) (calls : List Call) → HasEpochs windows calls self.now → result ≡ epoch_at (placed_of windows calls) call }
    {
        epoch_of(self.placements.placed(), call)
    }

    /// Whether an epoch has to be closed yet on a window that is not freed.
    pub fn is_unclosed(&self) -> bool
        ensures { (calls : List Call) → Represents calls self.now → result ≡ list_any (leaves_open calls) calls }
    {
        self.windows.is_unclosed()
    }

    /// The table of the calls taken, with what calls share that do the same.
    pub(crate) fn into_table(self, parts: PartTable) -> EpochTable
        requires { InOrder self.placements.placed.items }
        ensures sound { (calls : List Call) → Represents calls self → result.sound ≡ length calls }
        ensures epochs { (windows : List Window) (calls : List Call) → HasEpochs windows calls self → result.epochs ≡ epochs_of windows calls }
        ensures placed { (windows : List Window) (calls : List Call) → HasEpochs windows calls self → result.placed ≡ placed_of windows calls }
        ensures parts { result.parts ≡ parts }
    {
        EpochTable::new(self.taken, self.placements, parts)
    }
}

/// A call that is not taken.
fn refused(reason: Option<EpochReason>) -> Taken
    ensures { result ≡ record { reason = reason; epoch = None; closes = None } }
{
    Taken {
        reason,
        epoch: None,
        closes: None,
    }
}

/// The number of the window at a place.
fn window_of(place: Option<Place>) -> Option<WindowId>
    ensures { result ≡ option_and_then (λ place. place.window) place }
{
    match place {
        Some(place) => place.window,
        None => None,
    }
}
