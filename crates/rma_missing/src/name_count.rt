//! How many calls of a kind a rank makes on each name.
ghost use Rattle.std.specs.Prelude.{◌≡◌, ◌++◌, [], ◌∷◌, List, OnOk, IfOk};
ghost use Rattle.rma_call.specs.Call.{Call, call_of};
ghost use Rattle.rma_missing.specs.inside.NameCount.{count_in, IsCounted, AreCounts, AreAllCounts};

use indexmap::IndexMap;
use rma_base::{Memory, Name};
use rma_call::{CallList, CallRef};
use rma_round::{Kind, named};
use std::alloc::Global;

/// How many calls of each kind a rank makes on each name.
#[derive(Drop)]
pub(crate) struct AllCounts {
    pub(crate) collectives: IndexMap<Name, usize>,
    pub(crate) frees: IndexMap<Name, usize>,
    pub(crate) fences: IndexMap<Name, usize>,
    pub(crate) movings: IndexMap<Name, usize>,
}

impl AllCounts {
    /// No calls.
    pub(crate) fn new(alloc: Global) -> AllCounts
        ensures { AreAllCounts [] result }
    {
        AllCounts {
            collectives: IndexMap::new(alloc),
            frees: IndexMap::new(alloc),
            fences: IndexMap::new(alloc),
            movings: IndexMap::new(alloc),
        }
    }

    /// Counts a call, if it is of a kind.
    pub(crate) fn note(&mut self, call: CallRef<'_>) -> Result<(), Memory>
        ensures { OnOk result ((before : List Call) → AreAllCounts before self.old → AreAllCounts (before ++ call_of call.entry ∷ []) self.new) }
    {
        note(Kind::Collective, &mut self.collectives, call)?;
        note(Kind::Free, &mut self.frees, call)?;
        note(Kind::Fence, &mut self.fences, call)?;
        note(Kind::Moving, &mut self.movings, call)?;
        Ok(())
    }
}

/// The number of calls on the name.
pub(crate) fn count(counts: &IndexMap<Name, usize>, name: &Name) -> usize
    ensures { result ≡ count_in counts.now.entries name.now }
{
    match counts.get(name) {
        Some(number) => *number,
        None => 0,
    }
}

/// Counts a call, if it is of the kind.
pub(crate) fn note(
    kind: Kind,
    counts: &mut IndexMap<Name, usize>,
    call: CallRef<'_>,
) -> Result<(), Memory>
    ensures { OnOk result (IsCounted kind counts.old.entries counts.new.entries (call_of call.entry)) }
{
    let Some(name) = named(kind, call.what) else {
        return Ok(());
    };
    if let Some(number) = counts.get_mut(name) {
        let Some(more) = number.checked_add(1) else {
            return Err(Memory);
        };
        *number = more;
        return Ok(());
    }
    let name = name.copy()?;
    match counts.insert(name, 1) {
        Ok(_) => Ok(()),
        Err(_) => Err(Memory),
    }
}

/// The numbers of the calls of the kind on each name.
pub(crate) fn count_all(
    alloc: Global,
    kind: Kind,
    calls: &CallList,
) -> Result<IndexMap<Name, usize>, Memory>
    ensures { IfOk result (λ counts. AreCounts kind calls.now.calls counts.entries) }
{
    let mut counts = IndexMap::new(alloc);
    for i in 0..calls.len() {
        match note(kind, &mut counts, calls.get(i)) {
            Ok(()) => {}
            Err(error) => return Err(error),
        }
    }
    Ok(counts)
}
