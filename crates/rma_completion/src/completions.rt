//! What the calls of a rank complete.
ghost use Rattle.std.specs.Prelude.{◌≡◌, ◌<◌, ◌++◌, ◌∷◌, ℕ, [], List, Option, None, Some, length, nat_eq, OnOk, if◌then◌else◌};
ghost use Rattle.std.specs.Option.{option_and_then};
ghost use Rattle.rma_base.specs.declared.rank.Rank.{Rank};
ghost use Rattle.rma_call.specs.Call.{Call, call_of, what_of};
ghost use Rattle.rma_window.specs.Windows.{Window};
ghost use Rattle.rma_open.specs.Calls.{number_on};
ghost use Rattle.rma_completion.specs.Completing.{completes_locally};
ghost use Rattle.rma_completion.specs.Done.{first_after, is_wait, local_completion, remote_completion, wait_of};
ghost use Rattle.rma_completion.specs.declared.completing.Completion.{Completion as Extent};
ghost use Rattle.rma_completion.specs.inside.Kept.{Represents, listed_on, wait_at, wait_with, with_number};

use crate::completing::{Completing, completed_by};
use crate::numbers::earlier;
use crate::window_completions::WindowCompletions;
use indexmap::IndexMap;
use rma_base::{Memory, Rank};
use rma_call::{CallRef, MessageCall, WhatRef};
use rma_window::WindowId;
use std::alloc::Global;

/// What the calls of a rank complete, as they come.
#[derive(Drop)]
pub struct Completions {
    /// Where tables take their memory.
    alloc: Global,
    /// What they complete on each window, by its number.
    windows: IndexMap<u32, WindowCompletions>,
    /// By request, one more than the number of its wait; 0 where there is none.
    waits: Vec<u32>,
}

impl Completions {
    /// Nothing, before the first call.
    pub fn new(alloc: Global) -> Completions
        ensures { (windows : List Window) → Represents windows [] result }
    {
        Completions {
            alloc,
            windows: IndexMap::new(alloc),
            waits: Vec::new(alloc),
        }
    }

    /// Takes the next call of the rank, which has this number and is on the window of this number, if it is on one.
    ///
    /// # Errors
    ///
    /// `Memory`, and then nothing is said of what is kept.
    pub fn take(
        &mut self,
        window: Option<WindowId>,
        number: u32,
        call: CallRef<'_>,
    ) -> Result<(), Memory>
        ensures { OnOk result ((windows : List Window) (calls : List Call) → window ≡ number_on windows (call_of call.entry).what → number ≡ length calls
            → Represents windows calls self.old → Represents windows (calls ++ call_of call.entry ∷ []) self.new) }
    {
        if is_wait(call.what) {
            return self.take_wait(number, call.request);
        }
        match (window, completed_by(call.what)) {
            (Some(window), Some(by)) => { add(self.alloc, &mut self.windows, window, by, number) }
            _ => Ok(()),
        }
    }

    /// Takes a wait of this number for a request.
    fn take_wait(&mut self, number: u32, request: Option<u32>) -> Result<(), Memory>
        ensures windows { OnOk result (self.new.windows ≡ self.old.windows) }
        ensures waits { OnOk result ((other : ℕ) → wait_at self.new.waits.items other ≡ wait_with self.old.waits.items request number other) }
    {
        match request {
            Some(request) => put_wait(&mut self.waits, request, number),
            None => Ok(()),
        }
    }

    /// The call that completes at its target the operation of this number, on the window in a lock epoch: the first unlock or
    /// flush behind it that covers the target.
    pub fn remote(&self, window: WindowId, target: Rank, number: u32) -> Option<u32>
        ensures { (windows : List Window) (calls : List Call) → Represents windows calls self.now → result ≡ remote_completion windows calls window target number }
    {
        match self.windows.get(&window.0) {
            Some(own) => own.remote_after(target, number),
            None => None,
        }
    }

    /// The call that completes it at the caller: the first unlock, flush, local flush or complete behind it that covers the
    /// target, or the wait of its request, if it makes one.
    pub fn local(
        &self,
        window: WindowId,
        target: Rank,
        request: Option<u32>,
        number: u32,
    ) -> Option<u32>
        ensures { (windows : List Window) (calls : List Call) → Represents windows calls self.now → result ≡ local_completion windows calls window target request number }
    {
        let own = self.local_on(window, target, number);
        earlier(own, self.wait_of(request))
    }

    /// The same of calls on the window alone.
    fn local_on(&self, window: WindowId, target: Rank, number: u32) -> Option<u32>
        ensures { (windows : List Window) (calls : List Call) → Represents windows calls self.now → result ≡ first_after (completes_locally windows window target) calls number }
    {
        match self.windows.get(&window.0) {
            Some(own) => earlier(
                own.remote_after(target, number),
                own.local_after(target, number),
            ),
            None => None,
        }
    }

    /// The wait of a request, if there is one.
    fn wait_of(&self, request: Option<u32>) -> Option<u32>
        ensures { (windows : List Window) (calls : List Call) → Represents windows calls self.now → result ≡ option_and_then (wait_of calls) request }
    {
        match request {
            Some(request) => wait_at(&self.waits, request),
            None => None,
        }
    }
}

/// Adds a call of this number that completes operations on the window of a number.
fn add(
    alloc: Global,
    windows: &mut IndexMap<u32, WindowCompletions>,
    window: WindowId,
    by: Completing,
    number: u32,
) -> Result<(), Memory>
    ensures { OnOk result ((id : ℕ) (target : Option Rank) (completion : Extent) → listed_on windows.new.entries id target completion
        ≡ listed_on windows.old.entries id target completion ++ (if nat_eq window.0 id then with_number by number target completion else [])) }
{
    if let Some(own) = windows.get_mut(&window.0) {
        return own.add(alloc, by, number);
    }
    let mut own = WindowCompletions::new(alloc);
    own.add(alloc, by, number)?;
    windows.insert(window.0, own)?;
    Ok(())
}

/// Whether a call is a wait.
fn is_wait(what: WhatRef<'_>) -> bool
    ensures { result ≡ is_wait (what_of what.entry) }
{
    matches!(what, WhatRef::Message(MessageCall::Wait { .. }))
}

/// The wait that is kept of a request.
fn wait_at(waits: &[u32], request: u32) -> Option<u32>
    ensures { result ≡ wait_at waits.now request }
{
    match waits.get(request as usize) {
        Some(kept) => kept.checked_sub(1),
        None => None,
    }
}

/// Keeps the number of a wait for a request, unless one is kept.
fn put_wait(waits: &mut Vec<u32>, request: u32, number: u32) -> Result<(), Memory>
    ensures { OnOk result ((other : ℕ) → wait_at waits.new.items other ≡ wait_with waits.old.items (Some request) number other) }
{
    let Some(kept) = number.checked_add(1) else {
        return Err(Memory);
    };
    reach(waits, request)?;
    let own = &mut waits[request as usize];
    if *own == 0 {
        *own = kept;
    }
    Ok(())
}

/// Makes the column so long that it has a place for a request.
fn reach(waits: &mut Vec<u32>, request: u32) -> Result<(), Memory>
    ensures long { OnOk result (request < length waits.new.items) }
    ensures same { OnOk result ((other : ℕ) → wait_at waits.new.items other ≡ wait_at waits.old.items other) }
{
    for _ in waits.len()..request as usize + 1 {
        waits.push(0)?;
    }
    Ok(())
}
