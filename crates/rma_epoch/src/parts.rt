//! What calls share that do the same: their window, and the part of their target.
ghost use Rattle.std.specs.Prelude.{◌≡◌, ◌≤◌, ◌+◌, [], length, List, None, Some, option_map, slice_get, IfOk, IfSome, OnOk};
ghost use Rattle.rma_base.specs.Limits.{address_limit};
ghost use Rattle.rma_call.specs.Call.{what_of};
ghost use Rattle.rma_call.specs.declared.what.What.{What};
ghost use Rattle.rma_window.specs.Windows.{part_of};
ghost use Rattle.rma_open.specs.Calls.{number_on, part_on};
ghost use Rattle.rma_epoch.specs.Table.{at_what};
ghost use Rattle.rma_epoch.specs.inside.Parts.{AreEntries, AreInSpace, AreRemembered, IsPart, number_kept, part_at, part_kept, part_to, shown_in, StayIn, target_of, window_at};

use indexmap::IndexMap;
use rma_base::{Memory, Rank};
use rma_call::WhatRef;
use rma_window::{Part, WindowId, Windows};
use std::alloc::Global;
use std::marker::Model;

/// Whose part of which window.
#[derive(Clone, Copy, Debug, PartialEq, Eq, Hash)]
pub(crate) struct PartKey {
    /// The window.
    pub window: WindowId,
    /// The rank that brings the part.
    pub rank: Rank,
}

/// What calls share that do the same. A number that it keeps is 0 where there is none, and else one higher.
#[derive(Clone, Copy, Debug)]
pub(crate) struct Entry {
    /// The window.
    pub window: u32,
    /// The index of the part of their target among those that are kept.
    pub part: u32,
}

/// What calls share that do the same, as it is found.
#[derive(Debug, Drop)]
pub(crate) struct Parts {
    /// By the numbers of what calls do.
    entries: Vec<Entry>,
    /// The parts of the targets, each once.
    parts: IndexMap<PartKey, Part>,
}

impl Parts {
    /// Nothing.
    pub(crate) fn new(alloc: Global) -> Parts
        ensures entries { result.entries.items ≡ [] }
        ensures parts { result.parts.entries ≡ [] }
    {
        Parts {
            entries: Vec::new(alloc),
            parts: IndexMap::new(alloc),
        }
    }

    /// Adds what calls share that do this and are on this window, if that is one of the run, and answers the part of their target.
    pub(crate) fn add(
        &mut self,
        windows: &Windows,
        window: Option<WindowId>,
        what: WhatRef<'_>,
    ) -> Result<Option<Part>, Memory>
        requires window { window ≡ number_on windows.now (what_of what) }
        requires remembered { AreRemembered windows.now self.old.parts.entries }
        ensures part { IfOk result (λ part. part ≡ part_on windows.now (what_of what.entry)) }
        ensures remembered { OnOk result (AreRemembered windows.now self.new.parts.entries) }
        ensures len { OnOk result (length self.new.entries.items ≡ length self.old.entries.items + 1) }
        ensures entries { OnOk result ((whats : List What) → slice_get whats (length self.old.entries.items) ≡ Some (what_of what.entry) → AreEntries windows.now whats self.old → AreEntries windows.now whats self.new) }
    {
        let found = part_of(&mut self.parts, windows, window, target_of(what))?;
        self.entries.push(Entry {
            window: kept(window_number(window))?,
            part: kept(found.index)?,
        })?;
        Ok(found.part)
    }
}

/// A part that was found.
#[derive(Clone, Copy, Debug)]
pub(crate) struct FoundPart {
    /// Its index among those that are kept.
    pub index: Option<u32>,
    /// The part.
    pub part: Option<Part>,
}

impl FoundPart {
    /// No part.
    fn none() -> FoundPart
        ensures { result ≡ record { index = None; part = None } }
    {
        FoundPart {
            index: None,
            part: None,
        }
    }
}

/// The part of the target in the window of this number, if there is one. What is looked up is kept.
fn part_of(
    parts: &mut IndexMap<PartKey, Part>,
    windows: &Windows,
    window: Option<WindowId>,
    target: Option<Rank>,
) -> Result<FoundPart, Memory>
    requires { AreRemembered windows.now parts.old.entries }
    ensures part { IfOk result (λ found. found.part ≡ part_to windows.now window target) }
    ensures index { IfOk result (λ found. IsPart parts.new.entries found.index (part_to windows.now window target)) }
    ensures stay { OnOk result (StayIn parts.old.entries parts.new.entries) }
    ensures remembered { OnOk result (AreRemembered windows.now parts.new.entries) }
{
    match (window, target) {
        (Some(window), Some(rank)) => part_at(parts, windows, PartKey { window, rank }),
        _ => Ok(FoundPart::none()),
    }
}

/// The same of the rank in the window of a key.
fn part_at(
    parts: &mut IndexMap<PartKey, Part>,
    windows: &Windows,
    key: PartKey,
) -> Result<FoundPart, Memory>
    requires { AreRemembered windows.now parts.old.entries }
    ensures part { IfOk result (λ found. found.part ≡ part_of windows.now key.window key.rank) }
    ensures index { IfOk result (λ found. IsPart parts.new.entries found.index (part_of windows.now key.window key.rank)) }
    ensures stay { OnOk result (StayIn parts.old.entries parts.new.entries) }
    ensures remembered { OnOk result (AreRemembered windows.now parts.new.entries) }
{
    if let Some((index, _, part)) = parts.get_full(&key) {
        return found_at(index, *part);
    }
    let Some(part) = windows.part(key.window, key.rank) else {
        return Ok(FoundPart::none());
    };
    let index = parts.len();
    parts.insert(key, part)?;
    found_at(index, part)
}

/// The part at an index.
fn found_at(index: usize, part: Part) -> Result<FoundPart, Memory>
    ensures { IfOk result (λ found. found ≡ record { index = Some index; part = Some part }) }
{
    match u32::try_from(index) {
        Ok(index) => Ok(FoundPart {
            index: Some(index),
            part: Some(part),
        }),
        Err(_) => Err(Memory),
    }
}

/// The target of a call that does this, where it is an access to one.
fn target_of(what: WhatRef<'_>) -> Option<Rank>
    ensures { result ≡ target_of (what_of what.entry) }
{
    match what {
        WhatRef::Rma(access) => access.target(),
        WhatRef::Epoch(_) => None,
        WhatRef::Window(_) => None,
        WhatRef::Frame(_) => None,
        WhatRef::Message(_) => None,
        WhatRef::Moving(_) => None,
        WhatRef::Local(_) => None,
    }
}

/// The number of a window, if there is one.
fn window_number(window: Option<WindowId>) -> Option<u32>
    ensures { result ≡ option_map (λ id. id.0) window }
{
    match window {
        Some(id) => Some(id.0),
        None => None,
    }
}

/// How an entry keeps a number.
///
/// # Errors
///
/// `Memory` where the number is the last one of its type.
fn kept(number: Option<u32>) -> Result<u32, Memory>
    ensures { IfOk result (λ kept. number_kept kept ≡ number) }
{
    match number {
        Some(number) => number.checked_add(1).ok_or(Memory),
        None => Ok(0),
    }
}

/// The number that an entry keeps, if it keeps one.
fn number_kept(kept: u32) -> Option<u32>
    ensures { result ≡ number_kept kept }
{
    kept.checked_sub(1)
}

/// For each number of what calls do, the window that the calls are on, and the part of their target.
#[derive(Debug, Drop)]
pub struct PartTable {
    /// How it is kept.
    kept: Parts,
}

impl Model for PartTable {
    ghost use Rattle.std.specs.Prelude.{List};
    ghost use Rattle.rma_epoch.specs.Table.{OnWindow};

    ghost Value = { List OnWindow };

    ghost use Rattle.rma_epoch.specs.inside.Parts.{AreInSpace, shown_in};

    ghost view = { λ table. shown_in table.kept };

    ghost invariant = { λ table. AreInSpace table.kept.parts.entries };
}

impl PartTable {
    /// The table of what is kept.
    pub(crate) fn new(kept: Parts) -> PartTable
        requires { AreInSpace kept.parts.entries }
        ensures { result ≡ shown_in kept }
    {
        PartTable { kept }
    }

    /// The window that calls are on whose number of what they do is this one, where it is a window of the run.
    pub fn window(&self, what: u32) -> Option<WindowId>
        ensures { result ≡ (at_what self.now what).window }
    {
        window_in(&self.kept.entries, what)
    }

    /// The part of the target of calls whose number of what they do is this one, where they are accesses to a target that has one.
    pub fn part(&self, what: u32) -> Option<Part>
        ensures part { result ≡ (at_what self.now what).part }
        ensures in_space { IfSome result (λ part. part.base + part.size ≤ address_limit) }
    {
        part_in(&self.kept.entries, &self.kept.parts, what)
    }
}

/// The window that is kept at a number.
fn window_in(entries: &[Entry], what: u32) -> Option<WindowId>
    ensures { result ≡ window_at entries.now what }
{
    match entries.get(what as usize) {
        Some(entry) => number_kept(entry.window).map(WindowId),
        None => None,
    }
}

/// The part that is kept at a number.
fn part_in(entries: &[Entry], parts: &IndexMap<PartKey, Part>, what: u32) -> Option<Part>
    ensures { result ≡ part_at parts.now.entries entries.now what }
{
    match entries.get(what as usize) {
        Some(entry) => part_kept(parts, entry.part),
        None => None,
    }
}

/// The part that is kept under a number.
fn part_kept(parts: &IndexMap<PartKey, Part>, kept: u32) -> Option<Part>
    ensures { result ≡ part_kept parts.now.entries kept }
{
    let Some(index) = number_kept(kept) else {
        return None;
    };
    match parts.get_index(index as usize) {
        Some((_, part)) => Some(*part),
        None => None,
    }
}
