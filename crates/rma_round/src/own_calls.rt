//! The calls of one rank in rounds, by their kind and by the name that they are on.
ghost use Rattle.std.specs.Prelude.{◌≡◌, ◌≤◌, [], ℕ, List, Some, true, slice_get, length, IfOk, OnOk};
ghost use Rattle.std.specs.Map.{keys_of};
ghost use Rattle.rma_base.specs.Limits.{fed_limit};
ghost use Rattle.rma_call.specs.Call.{Call, what_of};
ghost use Rattle.rma_round.specs.declared.kind.Kind.{Kind};
ghost use Rattle.rma_round.specs.declared.kind.Kind.TheVariants as kind;
ghost use Rattle.rma_round.specs.Round.{numbers};
ghost use Rattle.rma_round.specs.inside.Lists.{list_of, lists_in, names_of, index_in, HasNumbers, IsPlaceOf, ArePlaces, StayThere, IsPushed};

use crate::kind::{Kind, named};
use indexmap::IndexMap;
use rma_base::{Memory, Name, Sequence};
use rma_call::{CallList, WhatRef};
use std::alloc::Global;

/// The numbers of the calls of one rank in rounds, by the name that they are on.
#[derive(Drop)]
pub(crate) struct OwnCalls {
    /// Those of barriers and of creations of windows.
    pub(crate) collectives: IndexMap<Name, Sequence<u32>>,
    /// Those of calls that free a window.
    pub(crate) frees: IndexMap<Name, Sequence<u32>>,
    /// Those of fences.
    pub(crate) fences: IndexMap<Name, Sequence<u32>>,
    /// Those of calls that move data.
    pub(crate) movings: IndexMap<Name, Sequence<u32>>,
}

/// Where the numbers of calls go that do the same: the kind, and the place of the name among those of the kind.
#[derive(Clone, Copy)]
enum Place {
    /// To no list: such calls are in no round.
    Nowhere,
    /// To those of barriers and of creations of windows.
    Collective(usize),
    /// To those of calls that free a window.
    Free(usize),
    /// To those of fences.
    Fence(usize),
    /// To those of calls that move data.
    Moving(usize),
}

impl OwnCalls {
    /// Those of all calls of a rank. Each thing that calls do is looked at once, and then each call is one index and one push.
    pub(crate) fn of_calls(alloc: Global, calls: &CallList) -> Result<OwnCalls, Memory>
        requires { length calls.now.calls ≤ fed_limit }
        ensures { IfOk result (λ own. (kind : Kind) (name : List ℕ) → list_of (lists_in kind own) name ≡ numbers kind name calls.now.calls) }
    {
        let mut own = OwnCalls::new(alloc);
        let places = own.places(alloc, calls)?;
        if own.is_empty() {
            return Ok(own);
        }
        own.fill(calls, places.as_slice())?;
        Ok(own)
    }

    /// None.
    fn new(alloc: Global) -> OwnCalls
        ensures { (kind : Kind) → lists_in kind result ≡ [] }
    {
        OwnCalls {
            collectives: IndexMap::new(alloc),
            frees: IndexMap::new(alloc),
            fences: IndexMap::new(alloc),
            movings: IndexMap::new(alloc),
        }
    }

    /// Whether no call is on a name.
    fn is_empty(&self) -> bool
        ensures { result ≡ true → (kind : Kind) → lists_in kind self.now ≡ [] }
    {
        self.collectives.is_empty()
            && self.frees.is_empty()
            && self.fences.is_empty()
            && self.movings.is_empty()
    }

    /// The places of calls, by the numbers of what they do. Each name gets an empty list.
    fn places(&mut self, alloc: Global, calls: &CallList) -> Result<Vec<Place>, Memory>
        ensures len { IfOk result (λ places. length places.items ≡ length calls.now.whats) }
        ensures each { OnOk result (HasNumbers calls.now.whats calls.now.calls) }
        ensures places { IfOk result (λ places. (kind : Kind) → ArePlaces kind (names_of kind self.new) calls.now.whats places.items) }
        ensures lists { OnOk result ((kind : Kind) (name : List ℕ) → list_of (lists_in kind self.new) name ≡ list_of (lists_in kind self.old) name) }
    {
        let mut places = Vec::new(alloc);
        for number in 0..calls.whats() {
            let place = self.place_for(alloc, calls.what(number))?;
            places.push(place)?;
        }
        Ok(places)
    }

    /// The place of calls that do this.
    fn place_for(&mut self, alloc: Global, what: WhatRef<'_>) -> Result<Place, Memory>
        ensures place { IfOk result (λ place. (kind : Kind) → IsPlaceOf kind (names_of kind self.new) (what_of what.entry) (index_in kind place)) }
        ensures names { OnOk result ((kind : Kind) → StayThere (names_of kind self.old) (names_of kind self.new)) }
        ensures lists { OnOk result ((kind : Kind) (name : List ℕ) → list_of (lists_in kind self.new) name ≡ list_of (lists_in kind self.old) name) }
    {
        if let Some(comm) = named(Kind::Collective, what) {
            let place = place_of(alloc, comm, &mut self.collectives)?;
            return Ok(Place::Collective(place));
        }
        if let Some(window) = named(Kind::Free, what) {
            let place = place_of(alloc, window, &mut self.frees)?;
            return Ok(Place::Free(place));
        }
        if let Some(window) = named(Kind::Fence, what) {
            let place = place_of(alloc, window, &mut self.fences)?;
            return Ok(Place::Fence(place));
        }
        if let Some(comm) = named(Kind::Moving, what) {
            let place = place_of(alloc, comm, &mut self.movings)?;
            return Ok(Place::Moving(place));
        }
        Ok(Place::Nowhere)
    }

    /// Appends each call to the list at its place.
    fn fill(&mut self, calls: &CallList, places: &[Place]) -> Result<(), Memory>
        requires few { length calls.now.calls ≤ fed_limit }
        requires each { length places.now ≡ length calls.now.whats }
        ensures { OnOk result ((kind : Kind) → ArePlaces kind (names_of kind self.old) calls.now.whats places.now
            → ((name : List ℕ) → list_of (lists_in kind self.old) name ≡ []) → (name : List ℕ) → list_of (lists_in kind self.new) name ≡ numbers kind name calls.now.calls) }
    {
        for i in 0..calls.len() {
            self.push_at(places[calls.what_number(i) as usize], i as u32)?;
        }
        Ok(())
    }

    /// Appends a call to the list at the place.
    fn push_at(&mut self, place: Place, number: u32) -> Result<(), Memory>
        ensures { OnOk result ((kind : Kind) → IsPushed kind (index_in kind place) number (lists_in kind self.old) (lists_in kind self.new)) }
    {
        match place {
            Place::Nowhere => Ok(()),
            Place::Collective(place) => push_there(place, number, &mut self.collectives),
            Place::Free(place) => push_there(place, number, &mut self.frees),
            Place::Fence(place) => push_there(place, number, &mut self.fences),
            Place::Moving(place) => push_there(place, number, &mut self.movings),
        }
    }
}

/// Appends a call to the list at the place.
fn push_there(
    place: usize,
    number: u32,
    lists: &mut IndexMap<Name, Sequence<u32>>,
) -> Result<(), Memory>
    ensures { OnOk result ((kind : Kind) → IsPushed kind (Some place) number lists.old.entries lists.new.entries) }
{
    match lists.get_index_mut(place) {
        Some(own) => own.push(number),
        None => Ok(()),
    }
}

/// The place of a name, which gets an empty list if it has none.
fn place_of(
    alloc: Global,
    name: &Name,
    lists: &mut IndexMap<Name, Sequence<u32>>,
) -> Result<usize, Memory>
    ensures place { IfOk result (λ place. slice_get (keys_of lists.new.entries) place ≡ Some name.now) }
    ensures names { OnOk result (StayThere (keys_of lists.old.entries) (keys_of lists.new.entries)) }
    ensures lists { OnOk result ((other : List ℕ) → list_of lists.new.entries other ≡ list_of lists.old.entries other) }
{
    if let Some(place) = lists.get_index_of(name) {
        return Ok(place);
    }
    let place = lists.len();
    lists.insert(name.copy()?, Sequence::new(alloc))?;
    Ok(place)
}
