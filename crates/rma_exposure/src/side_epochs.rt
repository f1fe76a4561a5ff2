//! The exposure epochs of one rank, or its access epochs.
ghost use Rattle.std.specs.Prelude.{◌≡◌, ◌++◌, ◌∷◌, [], ℕ, List, None, Some, length, nat_eq, true, false, IfOk, IfSome, OnOk, option_map, if◌then◌else◌};
ghost use Rattle.std.specs.Map.{lookup, keys_of};
ghost use Rattle.std.specs.Cmp.Lexicographic.{pointwise};
ghost use Rattle.rma_call.specs.Call.{Call};
ghost use Rattle.rma_exposure.specs.declared.side.Side.{Side};
ghost use Rattle.rma_exposure.specs.Opening.{opened, closed, opening_at};
ghost use Rattle.rma_exposure.specs.Matching.{numbers};
ghost use Rattle.rma_exposure.specs.Closing.{closing_of, opener_of};
ghost use Rattle.rma_exposure.specs.inside.Places.{IsPlaceIn, IsPlaceOf, IsPlace, NamesStay, WindowsStay, IsAddedAt};
ghost use Rattle.rma_exposure.specs.inside.Epochs.{kept, numbers_in, pending_in, IsOpened, ended, AreInOrder, HaveNoEpochs, AreEpochs};

use crate::opened::Opened;
use crate::openings::Openings;
use indexmap::IndexMap;
use rma_base::{Memory, Name, RankSet, Sequence};
use std::alloc::Global;

/// The exposure epochs of one rank, or its access epochs.
#[derive(Drop)]
pub(crate) struct SideEpochs {
    /// The calls that open them, by their window.
    pub(crate) windows: IndexMap<Name, Openings>,
    /// What is known of each, by the number of the call that opens it.
    pub(crate) openers: IndexMap<u32, Opened>,
    /// The numbers of the calls that close an epoch, ascending, each with that of the call that opened it.
    closed: Sequence<(u32, u32)>,
}

impl SideEpochs {
    /// None.
    pub(crate) fn new(alloc: Global) -> SideEpochs
        ensures { (side : Side) (calls : List Call) → HaveNoEpochs side calls → AreEpochs side calls result }
    {
        SideEpochs {
            windows: IndexMap::new(alloc),
            openers: IndexMap::new(alloc),
            closed: Sequence::new(alloc),
        }
    }

    /// Takes the next call of the rank, which opens an epoch, and answers the place of its window.
    pub(crate) fn add(
        &mut self,
        alloc: Global,
        known: Option<usize>,
        number: u32,
        window: &Name,
        group: &RankSet,
    ) -> Result<usize, Memory>
        requires { IfSome known (IsPlaceOf self.old window.now) }
        ensures epochs { OnOk result ((side : Side) (calls : List Call) (call : Call) → length calls ≡ number
            → opened side call.what ≡ Some (record { window = window.now; group = group.now }) → closed side call.what ≡ None
            → AreEpochs side calls self.old → AreEpochs side (calls ++ call ∷ []) self.new) }
        ensures place { IfOk result (IsPlaceOf self.new window.now) }
        ensures stay { OnOk result (WindowsStay self.old self.new) }
    {
        let place = add(alloc, &mut self.windows, known, number, window, group)?;
        let epoch = Opened::new(window, group)?;
        self.openers.insert(number, epoch)?;
        Ok(place)
    }

    /// Takes the next call of the rank, which closes an epoch if one is open, and answers the place of its window, if it has one.
    pub(crate) fn close(
        &mut self,
        known: Option<usize>,
        number: u32,
        window: &Name,
    ) -> Result<Option<usize>, Memory>
        requires { IfSome known (IsPlaceOf self.old window.now) }
        ensures epochs { OnOk result ((side : Side) (calls : List Call) (call : Call) → length calls ≡ number
            → opened side call.what ≡ None → closed side call.what ≡ Some window.now
            → AreEpochs side calls self.old → AreEpochs side (calls ++ call ∷ []) self.new) }
        ensures place { IfOk result (λ place. IfSome place (IsPlaceOf self.new window.now)) }
        ensures stay { OnOk result (WindowsStay self.old self.new) }
    {
        let place = place_of(&self.windows, known, window);
        let Some(opener) = close(&mut self.windows, place, window) else {
            return Ok(place);
        };
        end(&mut self.openers, opener, number);
        self.closed.push((number, opener))?;
        Ok(place)
    }

    /// The numbers of the calls that open an epoch on the window with the other rank in their group.
    pub(crate) fn with(&self, window: &Name, other: u32) -> &[u32]
        ensures { (side : Side) (calls : List Call) → AreEpochs side calls self.now → result.now ≡ numbers side window.now other calls }
    {
        match self.windows.get(window) {
            Some(openings) => openings.with(other),
            None => &[],
        }
    }

    /// The window and the group of the epoch that the call of this number opens, if it opens one.
    pub(crate) fn opening(&self, number: u32) -> Option<(&Name, &RankSet)>
        ensures { (side : Side) (calls : List Call) → AreEpochs side calls self.now
            → option_map (λ p. record { window = p.0.now; group = p.1.now }) result ≡ opening_at side calls number }
    {
        match self.openers.get(&number) {
            Some(epoch) => Some((&epoch.window, &epoch.group)),
            None => None,
        }
    }

    /// The call that closes the epoch of this opening, where there is one.
    pub(crate) fn closing(&self, number: u32) -> Option<u32>
        ensures { (side : Side) (calls : List Call) → AreEpochs side calls self.now → result ≡ closing_of side calls number }
    {
        match self.openers.get(&number) {
            Some(epoch) => epoch.close,
            None => None,
        }
    }

    /// The call that opens the epoch which the call of this number closes, where there is one.
    pub(crate) fn opener(&self, number: u32) -> Option<u32>
        ensures { (side : Side) (calls : List Call) → AreEpochs side calls self.now → result ≡ opener_of side calls number }
    {
        opener_in(self.closed.as_slice(), number)
    }
}

/// The place of a window, if it has one. Where that is known it is not looked up.
fn place_of(
    windows: &IndexMap<Name, Openings>,
    known: Option<usize>,
    window: &Name,
) -> Option<usize>
    requires { IfSome known (IsPlaceIn windows.now.entries window.now) }
    ensures { IsPlace windows.now.entries window.now result }
{
    match known {
        Some(place) => Some(place),
        None => windows.get_index_of(window),
    }
}

/// Takes an opening on the window, and answers the place of that.
fn add(
    alloc: Global,
    windows: &mut IndexMap<Name, Openings>,
    known: Option<usize>,
    number: u32,
    window: &Name,
    group: &RankSet,
) -> Result<usize, Memory>
    requires { IfSome known (IsPlaceIn windows.old.entries window.now) }
    ensures own { OnOk result ((name : List ℕ) → pointwise nat_eq window.now name ≡ true → IsOpened number group.now (kept windows.old.entries name) (kept windows.new.entries name)) }
    ensures others { OnOk result ((name : List ℕ) → pointwise nat_eq window.now name ≡ false → kept windows.new.entries name ≡ kept windows.old.entries name) }
    ensures place { IfOk result (IsPlaceIn windows.new.entries window.now) }
    ensures stay { OnOk result (NamesStay windows.old.entries windows.new.entries) }
{
    if let Some(place) = place_of(windows, known, window) {
        add_at(alloc, windows, place, number, group)?;
        return Ok(place);
    }
    let place = windows.len();
    let mut openings = Openings::new(alloc);
    openings.add(alloc, number, group)?;
    let window = window.copy()?;
    windows.insert(window, openings)?;
    Ok(place)
}

/// Takes an opening on the window at a place.
fn add_at(
    alloc: Global,
    windows: &mut IndexMap<Name, Openings>,
    place: usize,
    number: u32,
    group: &RankSet,
) -> Result<(), Memory>
    ensures { OnOk result ((window : List ℕ) → IsPlaceIn windows.old.entries window place → IsAddedAt window number group.now windows.old.entries windows.new.entries) }
{
    match windows.get_index_mut(place) {
        Some(openings) => openings.add(alloc, number, group),
        None => Ok(()),
    }
}

/// Closes the epoch that is open on the window, which has this place, if it has one, and answers the call that opened it.
fn close(windows: &mut IndexMap<Name, Openings>, place: Option<usize>, window: &Name) -> Option<u32>
    requires { IsPlace windows.old.entries window.now place }
    ensures opener { result ≡ pending_in (kept windows.old.entries window.now) }
    ensures numbers { (name : List ℕ) (other : ℕ) → numbers_in (kept windows.new.entries name) other ≡ numbers_in (kept windows.old.entries name) other }
    ensures pending { (name : List ℕ) → pending_in (kept windows.new.entries name) ≡ (if pointwise nat_eq window.now name then None else pending_in (kept windows.old.entries name)) }
    ensures names { keys_of windows.new.entries ≡ keys_of windows.old.entries }
{
    let Some(place) = place else {
        return None;
    };
    match windows.get_index_mut(place) {
        Some(openings) => openings.pending.take(),
        None => None,
    }
}

/// Notes by which call an epoch is closed.
fn end(openers: &mut IndexMap<u32, Opened>, opener: u32, close: u32)
    ensures keys { keys_of openers.new.entries ≡ keys_of openers.old.entries }
    ensures notes { (number : ℕ) → lookup (nat_eq number) openers.new.entries ≡ option_map (λ epoch. if nat_eq opener number then ended close epoch else epoch) (lookup (nat_eq number) openers.old.entries) }
{
    if let Some(epoch) = openers.get_mut(&opener) {
        epoch.close = Some(close);
    }
}

/// The call that stands beside this close, where this stands in the list.
fn opener_in(closed: &[(u32, u32)], close: u32) -> Option<u32>
    ensures { AreInOrder closed.now → result ≡ lookup (nat_eq close) closed.now }
{
    match closed.binary_search_by_key(&close, |&(number, _)| number) {
        Ok(place) => Some(closed[place].1),
        Err(_) => None,
    }
}
