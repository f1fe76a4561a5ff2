//! What the calls of a rank complete on one window.
ghost use Rattle.std.specs.Prelude.{◌≡◌, ◌++◌, ℕ, [], nat_eq, unwrap_or, Option, Some, None, OnOk};
ghost use Rattle.std.specs.Map.{lookup};
ghost use Rattle.rma_base.specs.declared.rank.Rank.{Rank};
ghost use Rattle.rma_completion.specs.Done.{earlier};
ghost use Rattle.rma_completion.specs.declared.completing.Completion.{Completion as Extent};
ghost use Rattle.rma_completion.specs.declared.completing.Completion.TheVariants.{Local, Remote};
ghost use Rattle.rma_completion.specs.inside.Kept.{AreAscending, first_above, listed, listed_for, with_number};

use crate::completing::{Completing, Completion};
use crate::numbers::{Numbers, after_in, earlier};
use indexmap::IndexMap;
use rma_base::{Memory, Rank};
use std::alloc::Global;

/// What the calls of a rank complete on one window.
#[derive(Drop)]
pub(crate) struct WindowCompletions {
    /// By calls that complete the operations for all targets.
    pub(crate) all: Numbers,
    /// By those that complete the operations for one target, by its number.
    pub(crate) targets: IndexMap<u32, Numbers>,
}

impl WindowCompletions {
    /// Nothing.
    pub(crate) fn new(alloc: Global) -> WindowCompletions
        ensures { (target : Option Rank) (completion : Extent) → listed_for result target completion ≡ [] }
    {
        WindowCompletions {
            all: Numbers::new(alloc),
            targets: IndexMap::new(alloc),
        }
    }

    /// Adds a call of a number that is greater than those of all before it.
    pub(crate) fn add(&mut self, alloc: Global, by: Completing, number: u32) -> Result<(), Memory>
        ensures { OnOk result ((target : Option Rank) (completion : Extent) → listed_for self.new target completion ≡ listed_for self.old target completion ++ with_number by number target completion) }
    {
        match by.target {
            Some(target) => add(alloc, &mut self.targets, target, by.completion, number),
            None => self.all.add(by.completion, number),
        }
    }

    /// The number of the first call behind that of a number which completes at the target what was called for it.
    pub(crate) fn remote_after(&self, target: Rank, number: u32) -> Option<u32>
        ensures { AreAscending self.now → result ≡ earlier (first_above number (listed_for self.now (Some target) Remote)) (first_above number (listed_for self.now None Remote)) }
    {
        let own = self.targets.get(&target.0);
        earlier(
            after_in(own, Completion::Remote, number),
            self.all.after(Completion::Remote, number),
        )
    }

    /// The same of one which completes it at the caller alone.
    pub(crate) fn local_after(&self, target: Rank, number: u32) -> Option<u32>
        ensures { AreAscending self.now → result ≡ earlier (first_above number (listed_for self.now (Some target) Local)) (first_above number (listed_for self.now None Local)) }
    {
        let own = self.targets.get(&target.0);
        earlier(
            after_in(own, Completion::Local, number),
            self.all.after(Completion::Local, number),
        )
    }
}

/// Adds a call of this number that completes what was called for a target.
fn add(
    alloc: Global,
    targets: &mut IndexMap<u32, Numbers>,
    target: Rank,
    completion: Completion,
    number: u32,
) -> Result<(), Memory>
    ensures { OnOk result ((other : Rank) (extent : Extent) → listed (lookup (nat_eq other.0) targets.new.entries) extent
        ≡ listed (lookup (nat_eq other.0) targets.old.entries) extent ++ with_number (record { target = Some target; completion = completion }) number (Some other) extent) }
{
    if let Some(own) = targets.get_mut(&target.0) {
        return own.add(completion, number);
    }
    let mut own = Numbers::new(alloc);
    own.add(completion, number)?;
    targets.insert(target.0, own)?;
    Ok(())
}
