//! The communicators and windows that each rank has declared, with their members.
ghost use Rattle.std.specs.Prelude.{◌≡◌, ◌==◌, ◌++◌, ◌∷◌, [], ℕ, List, Some, None, false, nat_eq, option_copied, IfOk, OnOk, if◌then◌else◌};
ghost use Rattle.std.specs.Map.{lookup};
ghost use Rattle.std.specs.Option.{option_or};
ghost use Rattle.std.specs.Cmp.Lexicographic.{pointwise};
ghost use Rattle.rma_call.specs.Call.{Call, call_of, what_of};
ghost use Rattle.rma_round.specs.Kind.{comm_of, moved_on};
ghost use Rattle.rma_run.specs.Run.{with_calls};
ghost use Rattle.rma_match.specs.Membership.{declared, created_on, first_stated, everyone, group_of, window_for, comm_for, members};
ghost use Rattle.rma_match.specs.inside.Groups.{AreOfRank, AreGroups, kept_of};

use indexmap::IndexMap;
use rma_base::{Memory, Name, Rank, RankSet, Sequence};
use rma_call::{CallRef, FrameCall, WhatRef, WindowCall};
use rma_round::{Kind, named};
use std::alloc::Global;

/// The communicators and windows that one rank has declared.
#[derive(Drop)]
pub(crate) struct RankGroups {
    /// The ranks of each communicator.
    comms: IndexMap<Name, RankSet>,
    /// The communicator of each window.
    windows: IndexMap<Name, Name>,
}

impl RankGroups {
    /// None.
    fn new(alloc: Global) -> RankGroups
        ensures comms { result.comms.entries ≡ [] }
        ensures windows { result.windows.entries ≡ [] }
    {
        RankGroups {
            comms: IndexMap::new(alloc),
            windows: IndexMap::new(alloc),
        }
    }

    /// Takes what the next call of the rank does.
    fn take(&mut self, what: WhatRef<'_>) -> Result<(), Memory>
        ensures { OnOk result ((calls : List Call) (call : Call) → call.what ≡ what_of what.entry
            → AreOfRank calls (Some self.old) → AreOfRank (calls ++ call ∷ []) (Some self.new)) }
    {
        match what {
            WhatRef::Frame(FrameCall::Comm { comm, ranks }) => self.declare(comm, ranks),
            WhatRef::Window(WindowCall::Create { window, comm, .. }) => self.create(window, comm),
            _ => Ok(()),
        }
    }

    /// Takes the declaration of a communicator, if it is the first.
    fn declare(&mut self, comm: &Name, ranks: &RankSet) -> Result<(), Memory>
        ensures windows { OnOk result (self.new.windows ≡ self.old.windows) }
        ensures comms { OnOk result ((name : List ℕ) → lookup (pointwise nat_eq name) self.new.comms.entries
            ≡ option_or (lookup (pointwise nat_eq name) self.old.comms.entries) (if pointwise nat_eq comm.now name then Some ranks.now else None)) }
    {
        if self.comms.get(comm).is_some() {
            return Ok(());
        }
        let comm = comm.copy()?;
        let ranks = ranks.copy()?;
        self.comms.insert(comm, ranks)?;
        Ok(())
    }

    /// Takes the creation of a window, if it is the first.
    fn create(&mut self, window: &Name, comm: &Name) -> Result<(), Memory>
        ensures comms { OnOk result (self.new.comms ≡ self.old.comms) }
        ensures windows { OnOk result ((name : List ℕ) → lookup (pointwise nat_eq name) self.new.windows.entries
            ≡ option_or (lookup (pointwise nat_eq name) self.old.windows.entries) (if pointwise nat_eq window.now name then Some comm.now else None)) }
    {
        if self.windows.get(window).is_some() {
            return Ok(());
        }
        let window = window.copy()?;
        let comm = comm.copy()?;
        self.windows.insert(window, comm)?;
        Ok(())
    }
}

/// The communicators and windows that each rank has declared.
#[derive(Drop)]
pub(crate) struct Groups {
    /// Where tables take their memory.
    alloc: Global,
    /// All ranks of the run.
    everyone: Sequence<u32>,
    /// What each rank has declared, by its number.
    ranks: IndexMap<u32, RankGroups>,
}

impl Groups {
    /// No calls, of a run of so many ranks.
    ///
    /// # Errors
    ///
    /// `Memory` where there is none left.
    pub(crate) fn new(alloc: Global, ranks: u32) -> Result<Groups, Memory>
        ensures { IfOk result (AreGroups ranks (λ _. [])) }
    {
        Ok(Groups {
            alloc,
            everyone: everyone(alloc, ranks)?,
            ranks: IndexMap::new(alloc),
        })
    }

    /// Takes the next call of a rank.
    ///
    /// # Errors
    ///
    /// `Memory`, and then nothing is said of what is kept.
    pub(crate) fn take(&mut self, rank: Rank, call: CallRef<'_>) -> Result<(), Memory>
        ensures { OnOk result ((ranks : ℕ) (calls : ℕ → List Call) → AreGroups ranks calls self.old
            → AreGroups ranks (with_calls calls rank.0 (call_of call.entry ∷ [])) self.new) }
    {
        if !declares(call.what) {
            return Ok(());
        }
        take(self.alloc, &mut self.ranks, rank.0, call.what)
    }

    /// The ranks that take part in a call of a rank.
    pub(crate) fn members(&self, rank: Rank, what: WhatRef<'_>) -> &[u32]
        ensures { (ranks : ℕ) (calls : ℕ → List Call) → AreGroups ranks calls self.now → result.now ≡ members ranks (calls rank.0) (what_of what.entry) }
    {
        match self.comm_for(rank, what) {
            Some(comm) => self.group_of(rank, comm),
            None => &[],
        }
    }

    /// The communicator whose members take part in a call of a rank.
    fn comm_for<'a>(&'a self, rank: Rank, what: WhatRef<'a>) -> Option<&'a Name>
        ensures { (ranks : ℕ) (calls : ℕ → List Call) → AreGroups ranks calls self.now → option_copied result ≡ comm_for (calls rank.0) (what_of what.entry) }
    {
        if let Some(comm) = comm_of(what) {
            return Some(comm);
        }
        match window_for(what) {
            Some(window) => self.comm_of_window(rank, window),
            None => None,
        }
    }

    /// The communicator on which a rank has created a window.
    fn comm_of_window(&self, rank: Rank, window: &Name) -> Option<&Name>
        ensures { (ranks : ℕ) (calls : ℕ → List Call) → AreGroups ranks calls self.now → option_copied result ≡ first_stated created_on window.now (calls rank.0) }
    {
        match self.ranks.get(&rank.0) {
            Some(groups) => groups.windows.get(window),
            None => None,
        }
    }

    /// The group of a communicator.
    fn group_of(&self, rank: Rank, comm: &Name) -> &[u32]
        ensures { (ranks : ℕ) (calls : ℕ → List Call) → AreGroups ranks calls self.now → result.now ≡ group_of ranks (calls rank.0) comm.now }
    {
        if comm.text() == "world" {
            return self.everyone.as_slice();
        }
        match self.declared(rank, comm) {
            Some(ranks) => ranks.numbers(),
            None => &[],
        }
    }

    /// The ranks that a rank has declared of a communicator.
    fn declared(&self, rank: Rank, comm: &Name) -> Option<&RankSet>
        ensures { (ranks : ℕ) (calls : ℕ → List Call) → AreGroups ranks calls self.now → option_copied result ≡ first_stated declared comm.now (calls rank.0) }
    {
        match self.ranks.get(&rank.0) {
            Some(groups) => groups.comms.get(comm),
            None => None,
        }
    }
}

/// Takes what the next call of the rank does.
fn take(
    alloc: Global,
    ranks: &mut IndexMap<u32, RankGroups>,
    rank: u32,
    what: WhatRef<'_>,
) -> Result<(), Memory>
    ensures own { OnOk result ((calls : List Call) (call : Call) → call.what ≡ what_of what.entry
        → AreOfRank calls (kept_of ranks.old.entries rank) → AreOfRank (calls ++ call ∷ []) (kept_of ranks.new.entries rank)) }
    ensures others { OnOk result ((other : ℕ) → (rank == other) ≡ false → kept_of ranks.new.entries other ≡ kept_of ranks.old.entries other) }
{
    if let Some(groups) = ranks.get_mut(&rank) {
        return groups.take(what);
    }
    let mut groups = RankGroups::new(alloc);
    groups.take(what)?;
    ranks.insert(rank, groups)?;
    Ok(())
}

/// All ranks of a run of so many.
fn everyone(alloc: Global, ranks: u32) -> Result<Sequence<u32>, Memory>
    ensures { IfOk result (λ numbers. numbers ≡ everyone ranks) }
{
    let mut numbers = Sequence::new(alloc);
    for rank in 0..ranks {
        numbers.push(rank)?;
    }
    Ok(numbers)
}

/// Whether a call declares a communicator or creates a window.
fn declares(what: WhatRef<'_>) -> bool
    ensures comms { result ≡ false → declared (what_of what.entry) ≡ None }
    ensures windows { result ≡ false → created_on (what_of what.entry) ≡ None }
{
    match what {
        WhatRef::Frame(FrameCall::Comm { .. }) | WhatRef::Window(WindowCall::Create { .. }) => true,
        _ => false,
    }
}

/// The communicator that a call is on.
fn comm_of<'a>(what: WhatRef<'a>) -> Option<&'a Name>
    ensures { option_copied result ≡ option_or (comm_of (what_of what.entry)) (moved_on (what_of what.entry)) }
{
    match named(Kind::Collective, what) {
        Some(comm) => Some(comm),
        None => named(Kind::Moving, what),
    }
}

/// The window of a call that frees one, or of a fence.
fn window_for<'a>(what: WhatRef<'a>) -> Option<&'a Name>
    ensures { option_copied result ≡ window_for (what_of what.entry) }
{
    match named(Kind::Free, what) {
        Some(window) => Some(window),
        None => named(Kind::Fence, what),
    }
}
