//! What a rank has open on its windows.
ghost use Rattle.std.specs.Prelude.{◌≡◌, ◌+◌, [], ℕ, List, Some, None, true, length, nat_eq, slice_get, IfOk, OnOk};
ghost use Rattle.std.specs.Map.{keys_of, lookup};
ghost use Rattle.std.specs.List.{list_any};
ghost use Rattle.std.specs.Cmp.Lexicographic.{pointwise};
ghost use Rattle.rma_call.specs.Call.{Call, call_of, what_of};
ghost use Rattle.rma_call.specs.declared.what.What.{What};
ghost use Rattle.rma_window.specs.Windows.{Window, number_of};
ghost use Rattle.rma_open.specs.Calls.{number_on, part_on};
ghost use Rattle.rma_open.specs.Open.{open_after, open_on, is_unclosed};
ghost use Rattle.rma_open.specs.Reason.{reason_in};
ghost use Rattle.rma_epoch.specs.Fault.{leaves_open};
ghost use Rattle.rma_open.specs.declared.open_epochs.OpenEpochs.{OpenEpochs};
ghost use Rattle.rma_open.specs.inside.Held.{open_of};
ghost use Rattle.rma_open.specs.inside.Next.{past_with};
ghost use Rattle.rma_open.specs.inside.Settled.{settled_by};
ghost use Rattle.rma_epoch.specs.inside.Parts.{AreEntries, AreRemembered};
ghost use Rattle.rma_epoch.specs.inside.Windows.{ArePlaces, IsOpenAfter, IsPlaceOf, IsSpotOf, IsTaken, kept, names_in, placed_in, StayThere};

use crate::parts::Parts;
use crate::placements::Placement;
use indexmap::IndexMap;
use rma_base::{EpochReason, Memory, Name};
use rma_call::{CallList, CallRef, WhatRef};
use rma_open::{OpenEpochs, Settled, part_on, window_on};
use rma_window::{Part, WindowId, Windows};
use std::alloc::Global;

/// What a rank has open on its windows, as its calls come. A call finds its window by a place: what calls do tells it, so it
/// is looked up once for all calls that do the same.
#[derive(Drop)]
pub(crate) struct OpenWindows {
    /// Where tables take their memory.
    alloc: Global,
    /// What is open on each window that has a place.
    windows: IndexMap<Name, OpenEpochs>,
    /// Under which number each of them was found among those of the run, by their indices.
    numbers: Vec<Option<WindowId>>,
    /// The index that was found last: the next call is mostly on the same window.
    last: usize,
}

/// Where a window is found.
#[derive(Clone, Copy, Debug)]
pub(crate) struct Spot {
    /// Its index among the windows on which something may be open.
    pub index: usize,
    /// Its number among the windows of the run, if it is one of them.
    pub window: Option<WindowId>,
}

/// Where the window of a call is found.
#[derive(Clone, Copy, Debug)]
pub(crate) struct Place {
    /// Its index among the windows on which something may be open.
    pub index: usize,
    /// Its number among the windows of the run, if it is one of them.
    pub window: Option<WindowId>,
    /// What is settled of the call, whatever is open there.
    pub settled: Settled,
}

/// What comes of a call.
#[derive(Clone, Copy, Debug)]
pub(crate) struct Step {
    /// Why it stands in no epoch that allows it, and is not taken.
    pub reason: Option<EpochReason>,
    /// In which epoch it would stand, and what it would close.
    pub placement: Placement,
}

impl Step {
    /// A call that is on no window.
    fn none() -> Step
        ensures { result ≡ record { reason = None; placement = record { opening = None; closes = None } } }
    {
        Step {
            reason: None,
            placement: Placement::none(),
        }
    }
}

impl Place {
    /// The place of calls that do this, on a window that is found there, and to a target with this part of it.
    pub(crate) fn new(windows: &Windows, spot: Spot, part: Option<Part>, what: WhatRef<'_>) -> Place
        requires window { spot.window ≡ number_on windows.now (what_of what) }
        requires part { part ≡ part_on windows.now (what_of what) }
        ensures { result ≡ record { index = spot.index; window = spot.window; settled = settled_by windows.now (what_of what.entry) } }
    {
        Place {
            index: spot.index,
            window: spot.window,
            settled: Settled::of(windows, spot.window, part, what),
        }
    }
}

impl OpenWindows {
    /// Nothing, before the first call.
    pub(crate) fn new(alloc: Global) -> OpenWindows
        ensures { IsOpenAfter [] result }
    {
        OpenWindows {
            alloc,
            windows: IndexMap::new(alloc),
            numbers: Vec::new(alloc),
            last: 0,
        }
    }

    /// The places of the windows that calls are on, by the numbers of what calls do. What they share that do the same is added to
    /// the parts, where nothing stands yet.
    pub(crate) fn places(
        &mut self,
        windows: &Windows,
        parts: &mut Parts,
        calls: &CallList,
    ) -> Result<Vec<Option<Place>>, Memory>
        requires nothing { parts.old.entries.items ≡ [] }
        requires remembered { AreRemembered windows.now parts.old.parts.entries }
        ensures len { IfOk result (λ places. length places.items ≡ length calls.now.whats) }
        ensures places { IfOk result (λ places. ArePlaces windows.now (names_in self.new) calls.now.whats places.items) }
        ensures same { OnOk result ((before : List Call) → IsOpenAfter before self.old → IsOpenAfter before self.new) }
        ensures remembered { OnOk result (AreRemembered windows.now parts.new.parts.entries) }
        ensures parts_len { OnOk result (length parts.new.entries.items ≡ length calls.now.whats) }
        ensures parts { OnOk result (AreEntries windows.now calls.now.whats parts.new) }
    {
        let mut places = Vec::new(self.alloc);
        for number in 0..calls.whats() {
            let place = self.place_with(windows, parts, calls.what(number))?;
            places.push(place)?;
        }
        Ok(places)
    }

    /// The place of the window that calls are on which do this, where they are on one. What they share is added to the parts.
    fn place_with(
        &mut self,
        windows: &Windows,
        parts: &mut Parts,
        what: WhatRef<'_>,
    ) -> Result<Option<Place>, Memory>
        requires { AreRemembered windows.now parts.old.parts.entries }
        ensures place { IfOk result (IsPlaceOf windows.now (names_in self.new) (what_of what.entry)) }
        ensures remembered { OnOk result (AreRemembered windows.now parts.new.parts.entries) }
        ensures names { OnOk result (StayThere (names_in self.old) (names_in self.new)) }
        ensures same { OnOk result ((before : List Call) → IsOpenAfter before self.old → IsOpenAfter before self.new) }
        ensures len { OnOk result (length parts.new.entries.items ≡ length parts.old.entries.items + 1) }
        ensures parts { OnOk result ((whats : List What) → slice_get whats (length parts.old.entries.items) ≡ Some (what_of what.entry) → AreEntries windows.now whats parts.old → AreEntries windows.now whats parts.new) }
    {
        match self.spot(windows, what)? {
            Some(spot) => {
                let part = parts.add(windows, spot.window, what)?;
                Ok(Some(Place::new(windows, spot, part, what)))
            }
            None => {
                parts.add(windows, None, what)?;
                Ok(None)
            }
        }
    }

    /// The place of the window that calls are on which do this, where they are on one.
    pub(crate) fn place(
        &mut self,
        windows: &Windows,
        what: WhatRef<'_>,
    ) -> Result<Option<Place>, Memory>
        ensures place { IfOk result (IsPlaceOf windows.now (names_in self.new) (what_of what.entry)) }
        ensures names { OnOk result (StayThere (names_in self.old) (names_in self.new)) }
        ensures same { OnOk result ((before : List Call) → IsOpenAfter before self.old → IsOpenAfter before self.new) }
    {
        match self.spot(windows, what)? {
            Some(spot) => {
                let part = part_on(windows, spot.window, what);
                Ok(Some(Place::new(windows, spot, part, what)))
            }
            None => Ok(None),
        }
    }

    /// Where the window is found that calls are on which do this, where they are on one.
    fn spot(&mut self, windows: &Windows, what: WhatRef<'_>) -> Result<Option<Spot>, Memory>
        ensures spot { IfOk result (IsSpotOf windows.now (names_in self.new) (what_of what.entry)) }
        ensures names { OnOk result (StayThere (names_in self.old) (names_in self.new)) }
        ensures same { OnOk result ((before : List Call) → IsOpenAfter before self.old → IsOpenAfter before self.new) }
    {
        match window_on(what) {
            Some(name) => {
                let index = self.index_of(name)?;
                let window = self.number_of(windows, index, name)?;
                Ok(Some(Spot { index, window }))
            }
            None => Ok(None),
        }
    }

    /// The index of a window. Nothing is open on one that is new.
    fn index_of(&mut self, name: &Name) -> Result<usize, Memory>
        ensures index { IfOk result (λ index. slice_get (names_in self.new) index ≡ Some name.now) }
        ensures names { OnOk result (StayThere (names_in self.old) (names_in self.new)) }
        ensures same { OnOk result ((other : List ℕ) → kept self.new.windows.entries other ≡ kept self.old.windows.entries other) }
    {
        if is_at(&self.windows, self.last, name) {
            return Ok(self.last);
        }
        let index = index_of(self.alloc, &mut self.windows, name)?;
        self.last = index;
        Ok(index)
    }

    /// The number of the window at the index among those of the run, if it is one of them. It has this name.
    fn number_of(
        &mut self,
        windows: &Windows,
        index: usize,
        name: &Name,
    ) -> Result<Option<WindowId>, Memory>
        ensures number { IfOk result (λ number. number ≡ number_of windows.now name.now) }
        ensures same { OnOk result (self.new.windows.entries ≡ self.old.windows.entries) }
    {
        if let Some(number) = known_number(&self.numbers, index) {
            if is_number(windows, number, name) {
                return Ok(Some(number));
            }
        }
        let number = windows.find(name);
        if index == self.numbers.len() {
            self.numbers.push(number)?;
        }
        Ok(number)
    }

    /// Takes the call of this number, which is the next one and whose window has this place, unless it stands in no epoch that
    /// allows it: then it answers why, and the call is not taken. It answers too in which epoch the call stands, and what it closes.
    ///
    /// # Errors
    ///
    /// `Memory`, and then nothing is said of what is kept.
    pub(crate) fn take(
        &mut self,
        place: Option<Place>,
        number: u32,
        call: CallRef<'_>,
    ) -> Result<Step, Memory>
        ensures names { OnOk result (names_in self.new ≡ names_in self.old) }
        ensures taken { IfOk result (λ step. (windows : List Window) (calls : List Call) → IsPlaceOf windows (names_in self.old) (call_of call.entry).what place → number ≡ length calls → IsOpenAfter calls self.old
            → IsTaken windows calls (call_of call.entry) step self.new.windows.entries) }
    {
        match place {
            Some(place) => take_at(&mut self.windows, place, number, call),
            None => Ok(Step::none()),
        }
    }

    /// Whether an epoch has to be closed yet on a window that is not freed.
    pub(crate) fn is_unclosed(&self) -> bool
        ensures { (calls : List Call) → IsOpenAfter calls self.now → result ≡ list_any (leaves_open calls) calls }
    {
        any_unclosed(&self.windows)
    }
}

/// The index of a window. Nothing is open on one that is new.
fn index_of(
    alloc: Global,
    table: &mut IndexMap<Name, OpenEpochs>,
    name: &Name,
) -> Result<usize, Memory>
    ensures index { IfOk result (λ index. slice_get (keys_of table.new.entries) index ≡ Some name.now) }
    ensures names { OnOk result (StayThere (keys_of table.old.entries) (keys_of table.new.entries)) }
    ensures same { OnOk result ((other : List ℕ) → kept table.new.entries other ≡ kept table.old.entries other) }
{
    if let Some(index) = table.get_index_of(name) {
        return Ok(index);
    }
    let index = table.len();
    table.insert(name.copy()?, OpenEpochs::new(alloc))?;
    Ok(index)
}

/// Whether the window at the index has this name.
fn is_at(table: &IndexMap<Name, OpenEpochs>, index: usize, name: &Name) -> bool
    ensures { result ≡ true → slice_get (keys_of table.now.entries) index ≡ Some name.now }
{
    match table.get_index(index) {
        Some((key, _)) => key == name,
        None => false,
    }
}

/// The number at the index, if there is one.
fn known_number(numbers: &[Option<WindowId>], index: usize) -> Option<WindowId> {
    match numbers.get(index) {
        Some(number) => *number,
        None => None,
    }
}

/// Whether it is the number of the window of this name.
fn is_number(windows: &Windows, number: WindowId, name: &Name) -> bool
    ensures { result ≡ true → Some number ≡ number_of windows.now name.now }
{
    if number.0 as usize >= windows.len() {
        return false;
    }
    windows.name(number) == name
}

/// Takes the call of this number, which is the next one, on the window at the place, unless it has a reason, which it answers.
fn take_at(
    table: &mut IndexMap<Name, OpenEpochs>,
    place: Place,
    number: u32,
    call: CallRef<'_>,
) -> Result<Step, Memory>
    ensures names { OnOk result (keys_of table.new.entries ≡ keys_of table.old.entries) }
    ensures taken { IfOk result (λ step. (windows : List Window) (calls : List Call) → IsPlaceOf windows (keys_of table.old.entries) (call_of call.entry).what (Some place) → number ≡ length calls
        → ((window : List ℕ) → kept table.old.entries window ≡ open_on calls window) → IsTaken windows calls (call_of call.entry) step table.new.entries) }
{
    match table.get_index_mut(place.index) {
        Some(own) => take_on(own, place, number, call),
        None => Ok(Step::none()),
    }
}

/// Takes the call of this number, on the window on which this is open, unless it has a reason, which it answers.
fn take_on(
    own: &mut OpenEpochs,
    place: Place,
    number: u32,
    call: CallRef<'_>,
) -> Result<Step, Memory>
    ensures placement { IfOk result (λ step. step.placement ≡ placed_in (open_of own.old) (call_of call.entry).what) }
    ensures reason { IfOk result (λ step. (windows : List Window) → place.settled ≡ settled_by windows (call_of call.entry).what
        → step.reason ≡ reason_in windows (open_of own.old) (call_of call.entry).what call.entry.request) }
    ensures taken { IfOk result (λ step. (past : List (ℕ × What)) → open_of own.old ≡ open_after past
        → open_of own.new ≡ open_after (past_with step.reason (number, (call_of call.entry).what) past)) }
{
    let placement = Placement {
        opening: own.opening(call.what),
        closes: own.closed_by(call.what),
    };
    let (opening, closes) = (placement.opening, placement.closes);
    let reason = own.take_allowed(place.settled, opening, closes, number, call)?;
    Ok(Step { reason, placement })
}

/// Whether an epoch has to be closed yet on some window that is kept and not freed.
fn any_unclosed(table: &IndexMap<Name, OpenEpochs>) -> bool
    ensures any { result ≡ list_any (λ e. is_unclosed (open_of e.1)) table.now.entries }
    ensures found { (i : ℕ) (e : List ℕ × OpenEpochs) → slice_get table.now.entries i ≡ Some e → lookup (pointwise nat_eq e.0) table.now.entries ≡ Some e.1 }
{
    table.iter().any(|(_, own)| own.is_unclosed())
}
