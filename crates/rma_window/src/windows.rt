//! The table of windows.
ghost use Rattle.std.specs.Prelude.{◌≡◌, ◌+◌, ◌<◌, ◌≤◌, ℕ, [], ◌∷◌, ◌++◌, ◌&&◌, length, is_none, nat_le, nat_lt, Some, IfSome, IfOk, OnOk, OnErr, option_map};
ghost use Rattle.rma_base.specs.Limits.{address_limit, fed_limit};
ghost use Rattle.rma_call.specs.Call.{call_of, what_of};
ghost use Rattle.rma_window.specs.Creation.{creation_of};
ghost use Rattle.rma_window.specs.Windows.{MayCome, may_call, name_of, number_of, window_of, part_named, part_of, with_call, with_creation};
ghost use Rattle.rma_window.specs.inside.Windows.{creation_with, index_of, with_name};

use crate::part::Part;
use crate::window_id::WindowId;
use indexmap::IndexMap;
use rma_base::limits::{FED, SPACE};
use rma_base::{AccOps, Memory, Name, Rank, WinModel};
use rma_call::{CallRef, WhatRef, WindowCall};
use std::alloc::Global;
use std::marker::Model;

/// The windows of a run, with the part of each rank that created them.
#[derive(Debug, Drop)]
pub struct Windows {
    /// What each window was first created with, by its name, in the order of their numbers.
    names: IndexMap<Name, Attributes>,
    /// The parts of all windows.
    parts: IndexMap<PartKey, Part>,
}

/// What a window was first created with.
#[derive(Clone, Copy, Debug)]
struct Attributes {
    /// Its memory model.
    model: WinModel,
    /// Which accumulate operations may overlap.
    ops: AccOps,
    /// Whether memory is attached to it later.
    dynamic: bool,
}

/// Whose part of which window.
#[derive(Clone, Copy, Debug, PartialEq, Eq, Hash)]
struct PartKey {
    /// The window.
    window: WindowId,
    /// The rank that brings the part.
    rank: Rank,
}

impl Model for Windows {
    ghost use Rattle.std.specs.Prelude.{List, length};
    ghost use Rattle.rma_window.specs.Windows.{Window};

    ghost Value = { List Window };

    ghost use Rattle.rma_window.specs.inside.Windows.{windows_from, AreParts};

    ghost view = { λ table. windows_from 0 table.names.entries table.parts.entries };

    ghost invariant = { λ table. AreParts (length table.names.entries) table.parts.entries };
}

impl Windows {
    /// No windows.
    pub fn new(alloc: Global) -> Windows
        ensures { result ≡ [] }
    {
        Windows {
            names: IndexMap::new(alloc),
            parts: IndexMap::new(alloc),
        }
    }

    /// Takes the call of this number of a rank: where it creates a window, the rank has its part of it from then on, and a
    /// window whose name is new gets the next number. Any other call changes nothing.
    ///
    /// # Errors
    ///
    /// `Memory`: the table is as it was.
    pub fn take(&mut self, rank: Rank, number: u32, call: CallRef<'_>) -> Result<(), Memory>
        requires { IfSome (creation_of rank number (call_of call).what) (MayCome self.old) }
        ensures ok { OnOk result (self.new ≡ with_call self.old rank number (call_of call.entry).what) }
        ensures err { OnErr result (self.new ≡ self.old) }
    {
        let WhatRef::Window(
            WindowCall::Create {
                window,
                base,
                size,
                unit,
                model,
                ops,
                dynamic,
                ..
            },
        ) = call.what
        else {
            return Ok(());
        };
        let attributes = Attributes {
            model: *model,
            ops: *ops,
            dynamic: *dynamic,
        };
        let part = Part::of_call(*base, *size, *unit, *dynamic, number);
        self.add(window, attributes, rank, part)
    }

    /// Whether a call of the rank may be taken next: where it creates a window, the rank has no part of it yet, its part lies
    /// in the space of addresses, and there may be one more window.
    pub fn may_take(&self, rank: Rank, what: WhatRef<'_>) -> bool
        ensures { (number : ℕ) → result ≡ may_call self.now rank number (what_of what.entry) }
    {
        let WhatRef::Window(
            WindowCall::Create {
                window,
                base,
                size,
                unit,
                dynamic,
                ..
            },
        ) = what
        else {
            return true;
        };
        let part = Part::of_call(*base, *size, *unit, *dynamic, 0);
        self.may_add(window, rank, part)
    }

    /// Whether the rank may get this part of the window of this name.
    fn may_add(&self, name: &Name, rank: Rank, part: Part) -> bool
        ensures { result ≡ (is_none (part_named self.now name.now rank) && (nat_le (part.base + part.size) address_limit && nat_lt (length self.now) fed_limit)) }
    {
        let has_none = self.part_named(name, rank).is_none();
        let has_room = (self.len() as u64) < FED;
        has_none && (is_in_space(part.base, part.size) && has_room)
    }

    /// The part of the rank in the window of this name, where it created it.
    pub fn part_named(&self, name: &Name, rank: Rank) -> Option<Part>
        ensures { result ≡ part_named self.now name.now rank }
    {
        match self.find(name) {
            Some(window) => self.part(window, rank),
            None => None,
        }
    }

    /// Gives the rank its part of the window of this name, which is created with these attributes where none has the name.
    fn add(
        &mut self,
        name: &Name,
        attributes: Attributes,
        rank: Rank,
        part: Part,
    ) -> Result<(), Memory>
        requires { MayCome self.old (creation_with name.now attributes rank part) }
        ensures ok { OnOk result (self.new ≡ with_creation self.old (creation_with name.now attributes rank part)) }
        ensures err { OnErr result (self.new ≡ self.old) }
    {
        self.parts.reserve(1)?;
        let window = numbered(&mut self.names, name, attributes)?;
        self.parts.insert(PartKey { window, rank }, part)?;
        Ok(())
    }

    /// The number of windows.
    pub fn len(&self) -> usize
        ensures { result ≡ length self.now }
    {
        self.names.len()
    }

    /// The window of the name, where one was created.
    pub fn find(&self, name: &Name) -> Option<WindowId>
        ensures { result ≡ number_of self.now name.now }
    {
        match self.names.get_index_of(name) {
            Some(index) => Some(WindowId(index as u32)),
            None => None,
        }
    }

    /// The name of the window.
    pub fn name(&self, window: WindowId) -> &Name
        requires { window.0 < length self.now }
        ensures name { option_map name_of (window_of self.now window) ≡ Some result.now }
        ensures found { number_of self.now result.now ≡ Some window }
    {
        &self.names.keys().as_slice()[window.0 as usize]
    }

    /// The memory model of the window.
    pub fn model(&self, window: WindowId) -> WinModel
        requires { window.0 < length self.now }
        ensures { option_map (λ w. w.model) (window_of self.now window) ≡ Some result }
    {
        self.names[window.0 as usize].model
    }

    /// Which accumulate operations may overlap in the window.
    pub fn ops(&self, window: WindowId) -> AccOps
        requires { window.0 < length self.now }
        ensures { option_map (λ w. w.ops) (window_of self.now window) ≡ Some result }
    {
        self.names[window.0 as usize].ops
    }

    /// Whether memory is attached to the window later, so that its parts are the whole space of addresses.
    pub fn is_dynamic(&self, window: WindowId) -> bool
        requires { window.0 < length self.now }
        ensures { option_map (λ w. w.dynamic) (window_of self.now window) ≡ Some result }
    {
        self.names[window.0 as usize].dynamic
    }

    /// The part of the rank in the window, where it created it.
    pub fn part(&self, window: WindowId, rank: Rank) -> Option<Part>
        ensures part { result ≡ part_of self.now window rank }
        ensures in_space { IfSome result (λ part. part.base + part.size ≤ address_limit) }
    {
        self.parts.get(&PartKey { window, rank }).copied()
    }
}

/// Whether the bytes from the base on lie in the space of addresses.
fn is_in_space(base: u64, size: u64) -> bool
    ensures { result ≡ nat_le (base + size) address_limit }
{
    match base.checked_add(size) {
        Some(end) => end <= SPACE,
        None => false,
    }
}

/// The number of the name, which is created with these attributes where it is new.
fn numbered(
    names: &mut IndexMap<Name, Attributes>,
    name: &Name,
    attributes: Attributes,
) -> Result<WindowId, Memory>
    requires { length names.old.entries < fed_limit }
    ensures number { IfOk result (λ window. window.0 ≡ index_of names.old.entries name.now) }
    ensures ok { OnOk result (names.new.entries ≡ with_name names.old.entries name.now attributes) }
    ensures err { OnErr result (names.new.entries ≡ names.old.entries) }
{
    if let Some(index) = names.get_index_of(name) {
        return Ok(WindowId(index as u32));
    }
    let name = name.copy()?;
    let (index, _) = names.insert_full(name, attributes)?;
    Ok(WindowId(index as u32))
}
