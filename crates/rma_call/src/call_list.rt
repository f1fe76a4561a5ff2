//! The calls of a rank, with each value that they share stated once.
ghost use Rattle.std.specs.Prelude.{◌≡◌, ◌+◌, ◌<◌, ◌^◌, ◌++◌, [], ◌∷◌, ℕ, length, slice_get, option_map, Some, None, Ok, false, IfSome, IfOk, OnOk, OnErr};
ghost use Rattle.std.specs.Option.{option_and_then};
ghost use Rattle.rma_call.specs.declared.what.What.{What};
ghost use Rattle.rma_call.specs.declared.what.What.TheVariants.{Rma, Sync};
ghost use Rattle.rma_call.specs.declared.rma.RmaCall.{RmaCall};
ghost use Rattle.rma_call.specs.Rma.{placed};
ghost use Rattle.rma_call.specs.Call.{Call, no_calls, call_of, what_of};
ghost use Rattle.rma_call.specs.Group.{group_of};
ghost use Rattle.rma_call.specs.inside.CallList.{number_of};

use crate::entries::{Entries, Entry};
use crate::group::Group;
use crate::groups::{Groups, Place, next_number};
use crate::rma::Placement;
use crate::what::{SyncCall, What, WhatRef};
use rma_base::{LineNo, Memory, Site};
use std::alloc::Global;
use std::marker::Model;

/// A call of a list.
#[derive(Clone, Copy, Debug)]
pub struct CallRef<'a> {
    /// The line that records it, in the log of its rank.
    pub line: LineNo,
    /// Where it stands in the source of the program, if the recorder says so.
    pub site: Option<&'a Site>,
    /// What it does.
    pub what: WhatRef<'a>,
    /// The number of the request that it makes or completes.
    pub request: Option<u32>,
}

/// The calls of a rank in their order. A program makes its calls at a few places over and over, so a call takes 16 bytes: what
/// it does and its site stand in tables, once for all calls that share them, and the call has their numbers there. What a call
/// does stands in the table of its group, and its number gives the place.
#[derive(Debug, Drop)]
pub struct CallList {
    /// The calls in their order.
    entries: Entries,
    /// Where it stands what the calls do, by its numbers.
    places: Vec<Place>,
    /// What the calls do.
    groups: Groups,
    /// The sites of the calls.
    sites: Vec<Site>,
}

impl Model for CallList {
    ghost use Rattle.rma_call.specs.Call.{CallTable};

    ghost Value = { CallTable };

    ghost use Rattle.std.specs.Prelude.{All};
    ghost use Rattle.rma_call.specs.inside.CallList.{entry_calls, AreInTables};
    ghost use Rattle.rma_call.specs.inside.Groups.{whats_at, IsThere};

    ghost view = { λ list. record { calls = entry_calls (whats_at list.groups list.places.items) list.sites.items list.entries; whats = whats_at list.groups list.places.items; sites = list.sites.items } };

    ghost invariant = { λ list. AreInTables (whats_at list.groups list.places.items) list.sites.items list.entries × All (IsThere list.groups) list.places.items };
}

impl CallList {
    /// No calls, and empty tables.
    pub fn new(alloc: Global) -> CallList
        ensures { result ≡ no_calls }
    {
        CallList {
            entries: Entries::new(alloc),
            places: Vec::new(alloc),
            groups: Groups::new(alloc),
            sites: Vec::new(alloc),
        }
    }

    /// The number of calls.
    pub fn len(&self) -> usize
        ensures { result ≡ length self.now.calls }
    {
        self.entries.len()
    }

    /// The call at the index.
    pub fn get(&self, i: usize) -> CallRef<'_>
        requires { i < length self.now.calls }
        ensures { slice_get self.now.calls i ≡ Some (call_of result) }
    {
        let entry = self.entries.get(i);
        let site = match number_of(entry.site) {
            Some(number) => Some(&self.sites[number as usize]),
            None => None,
        };
        CallRef {
            line: entry.line,
            site,
            what: self.groups.get(self.places[entry.what as usize]),
            request: number_of(entry.request),
        }
    }

    /// The number of what the call at the index does.
    #[inline]
    pub fn what_number(&self, i: usize) -> u32
        requires { i < length self.now.calls }
        ensures within { result < length self.now.whats }
        ensures what { slice_get self.now.whats result ≡ option_map (λ call. call.what) (slice_get self.now.calls i) }
    {
        self.entries.what(i)
    }

    /// How many numbers there are of what calls do: one for each call that does something new. What each call does has one.
    pub fn whats(&self) -> u32
        ensures count { result ≡ length self.now.whats }
        ensures each { (i : ℕ) (call : Call) → slice_get self.now.calls i ≡ Some call → (number : ℕ) × (slice_get self.now.whats number ≡ Some call.what) }
    {
        self.places.len() as u32
    }

    /// Whether a call may be of the group: where not, none is.
    pub fn has(&self, group: Group) -> bool
        ensures { result ≡ false → (i : ℕ) (call : Call) → slice_get self.now.calls i ≡ Some call → group_of call.what ≡ group → ⊥ }
    {
        self.groups.len_of(group) != 0
    }

    /// What calls do that have this number.
    #[inline]
    pub fn what(&self, number: u32) -> WhatRef<'_>
        requires { number < length self.now.whats }
        ensures { slice_get self.now.whats number ≡ Some (what_of result) }
    {
        self.groups.get(self.places[number as usize])
    }

    /// The site of this number.
    pub fn site(&self, number: u32) -> &Site
        requires { number < length self.now.sites }
        ensures { slice_get self.now.sites number ≡ Some result.now }
    {
        &self.sites[number as usize]
    }

    /// Gives a number to what calls do: the next one, so that those given before keep what they name.
    ///
    /// # Errors
    ///
    /// `Memory` also where the table is full.
    pub fn add_what(&mut self, what: What) -> Result<u32, Memory>
        ensures number { IfOk result (λ number. number ≡ length self.old.whats) }
        ensures ok { OnOk result (self.new ≡ record self.old { whats = self.old.whats ++ what ∷ [] }) }
        ensures err { OnErr result (self.new ≡ self.old) }
    {
        let number = next_number(self.places.len())?;
        let place = self.groups.put(what)?;
        self.places.push(place)?;
        Ok(number)
    }

    /// The same of a call that accesses no memory.
    ///
    /// # Errors
    ///
    /// `Memory` also where the table is full.
    #[inline]
    pub fn add_sync(&mut self, call: SyncCall) -> Result<u32, Memory>
        ensures number { IfOk result (λ number. number ≡ length self.old.whats) }
        ensures ok { OnOk result (self.new ≡ record self.old { whats = self.old.whats ++ Sync call ∷ [] }) }
        ensures err { OnErr result (self.new ≡ self.old) }
    {
        let number = next_number(self.places.len())?;
        let place = self.groups.put_sync(call)?;
        self.places.push(place)?;
        Ok(number)
    }

    /// Gives a number to an access that the access of a number makes elsewhere: the next one, as to what other calls do. None,
    /// where that number is of something else, or of an access that itself was given a number so.
    ///
    /// # Errors
    ///
    /// `Memory` also where the table is full.
    pub fn add_placed(&mut self, what: u32, place: &Placement) -> Result<Option<u32>, Memory>
        requires { what < length self.old.whats }
        ensures number { IfOk result (λ number. IfSome number (λ number. number ≡ length self.old.whats)) }
        ensures ok { IfOk result (λ number. IfSome number (λ _. (call : RmaCall) × (slice_get self.old.whats what ≡ Some (Rma call))
            × (self.new ≡ record self.old { whats = self.old.whats ++ Rma (placed call place.now) ∷ [] }))) }
        ensures none { result ≡ Ok None → self.new ≡ self.old }
        ensures err { OnErr result (self.new ≡ self.old) }
    {
        let Place::Rma(call) = self.places[what as usize] else {
            return Ok(None);
        };
        let number = next_number(self.places.len())?;
        let there = self.groups.put_placed(call, place)?;
        self.places.push(there)?;
        Ok(Some(number))
    }

    /// Gives a number to a site: the next one, so that those given before keep what they name.
    ///
    /// # Errors
    ///
    /// `Memory` also where the table is full.
    pub fn add_site(&mut self, site: Site) -> Result<u32, Memory>
        ensures number { IfOk result (λ number. number ≡ length self.old.sites) }
        ensures ok { OnOk result (self.new ≡ record self.old { sites = self.old.sites ++ site ∷ [] }) }
        ensures err { OnErr result (self.new ≡ self.old) }
    {
        let number = next_number(self.sites.len())?;
        self.sites.push(site)?;
        Ok(number)
    }

    /// Appends the call of these numbers.
    pub fn push(
        &mut self,
        line: LineNo,
        site: Option<u32>,
        what: u32,
        request: Option<u32>,
    ) -> Result<(), Memory>
        requires site { IfSome site (λ number. number < length self.old.sites) }
        requires what { what < length self.old.whats }
        requires request { IfSome request (λ number. number + 1 < 2 ^ 32) }
        ensures ok { OnOk result ((value : What) → slice_get self.old.whats what ≡ Some value → self.new ≡ record self.old {
          calls = self.old.calls ++ record { line = line; site = option_and_then (slice_get self.old.sites) site; what = value; request = request } ∷ [];
        }) }
        ensures whats { self.new.whats ≡ self.old.whats }
        ensures sites { self.new.sites ≡ self.old.sites }
        ensures err { OnErr result (self.new ≡ self.old) }
    {
        self.entries.push(Entry {
            line,
            what,
            site: kept(site),
            request: kept(request),
        })?;
        Ok(())
    }
}

/// The number that an entry keeps, if it keeps one.
fn number_of(kept: u32) -> Option<u32>
    ensures { result ≡ number_of kept }
{
    kept.checked_sub(1)
}

/// How an entry keeps a number.
fn kept(number: Option<u32>) -> u32
    requires { IfSome number (λ number. number + 1 < 2 ^ 32) }
    ensures { number_of result ≡ number }
{
    match number {
        Some(number) => number + 1,
        None => 0,
    }
}
