//! The windows of whole logs.
ghost use Rattle.std.specs.Prelude.{◌≡◌, ◌<◌, ℕ, List, false, length, slice_get, map, find, fold, option_map, IfOk, IfSome, OnOk};
ghost use Rattle.rma_base.specs.declared.rank.Rank.{Rank};
ghost use Rattle.rma_call.specs.Call.{call_of, what_of};
ghost use Rattle.rma_window.specs.Creation.{attributes_by, creations, creations_from, names_by, part_by};
ghost use Rattle.rma_window.specs.Windows.{attributes_of, is_named, name_of, part_named, windows_by, with_call, with_creation};
ghost use Rattle.rma_window.specs.inside.Creating.{AreCreating, CreatesNothing};

use crate::windows::Windows;
use rma_base::{Memory, Rank};
use rma_call::{CallList, CallRef, Group, RankCalls, WhatRef, WindowCall};
use std::alloc::Global;

impl Windows {
    /// The windows of whole logs: all calls are taken, rank by rank in the order of the logs.
    ///
    /// # Errors
    ///
    /// `Memory`, also where a call may not come after those before it ([`Windows::may_take`]): a log that is good has none.
    pub fn of_calls(alloc: Global, ranks: &[RankCalls]) -> Result<Windows, Memory>
        ensures windows { IfOk result (λ windows. windows ≡ windows_by (creations ranks.now)) }
        ensures names { IfOk result (λ windows. map name_of windows ≡ names_by (creations ranks.now)) }
        ensures attributes { IfOk result (λ windows. (name : List ℕ) → option_map attributes_of (find (is_named name) windows) ≡ attributes_by (creations ranks.now) name) }
        ensures parts { IfOk result (λ windows. (name : List ℕ) (rank : Rank) → part_named windows name rank ≡ part_by (creations ranks.now) name rank) }
    {
        let mut windows = Windows::new(alloc);
        for rank in ranks {
            windows.take_all(alloc, rank)?;
        }
        Ok(windows)
    }

    /// Takes the calls of a rank in the order of its log. What calls do is looked at once, and then few calls are.
    fn take_all(&mut self, alloc: Global, rank: &RankCalls) -> Result<(), Memory>
        ensures { OnOk result (self.new ≡ fold with_creation self.old (creations_from rank.now.rank 0 rank.now.calls)) }
    {
        let calls = rank.calls();
        if !calls.has(Group::Window) {
            return Ok(());
        }
        let creating = creating(alloc, calls)?;
        for i in 0..calls.len() {
            self.take_at(rank.rank(), i, calls, creating.as_slice())?;
        }
        Ok(())
    }

    /// Takes the call at this index of a rank's calls, of which it is told by what they do which may create windows.
    fn take_at(
        &mut self,
        rank: Rank,
        index: usize,
        calls: &CallList,
        creating: &[bool],
    ) -> Result<(), Memory>
        requires call { index < length calls.now.calls }
        requires each { length creating.now ≡ length calls.now.whats }
        requires told { AreCreating calls.now.whats creating.now }
        ensures { OnOk result (IfSome (slice_get calls.now.calls index) (λ call. self.new ≡ with_call self.old rank index call.what)) }
    {
        if !creating[calls.what_number(index) as usize] {
            return Ok(());
        }
        self.take_next(rank, index, calls.get(index))
    }

    /// Takes the call at this index of a rank's calls, where it may come next.
    fn take_next(&mut self, rank: Rank, index: usize, call: CallRef<'_>) -> Result<(), Memory>
        ensures { OnOk result (self.new ≡ with_call self.old rank index (call_of call.entry).what) }
    {
        let Ok(number) = u32::try_from(index) else {
            return Err(Memory);
        };
        if !self.may_take(rank, call.what) {
            return Err(Memory);
        }
        self.take(rank, number, call)
    }
}

/// Of each thing that calls do, by its number, whether it creates a window.
fn creating(alloc: Global, calls: &CallList) -> Result<Vec<bool>, Memory>
    ensures len { IfOk result (λ flags. length flags.items ≡ length calls.now.whats) }
    ensures each { IfOk result (λ flags. AreCreating calls.now.whats flags.items) }
{
    let mut flags = Vec::with_capacity(alloc, calls.whats() as usize)?;
    for number in 0..calls.whats() {
        flags.push(creates(calls.what(number)))?;
    }
    Ok(flags)
}

/// Whether a call that does this may create a window: where not, it creates none.
fn creates(what: WhatRef<'_>) -> bool
    ensures { result ≡ false → CreatesNothing (what_of what.entry) }
{
    matches!(what, WhatRef::Window(WindowCall::Create { .. }))
}
