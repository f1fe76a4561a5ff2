//! The numbers of calls that complete operations.
ghost use Rattle.std.specs.Prelude.{◌≡◌, ◌++◌, ◌∷◌, [], None, OnOk, if◌then◌else◌};
ghost use Rattle.std.specs.Option.{option_copied};
ghost use Rattle.std.specs.List.Sorted.{IsNonDecreasing};
ghost use Rattle.rma_completion.specs.Completing.{same_completion};
ghost use Rattle.rma_completion.specs.Done.{earlier};
ghost use Rattle.rma_completion.specs.declared.completing.Completion.{Completion as Extent};
ghost use Rattle.rma_completion.specs.declared.completing.Completion.TheVariants.{Local, Remote};
ghost use Rattle.rma_completion.specs.inside.Kept.{first_above, listed, numbers_in};

use crate::completing::Completion;
use rma_base::{Memory, Sequence};
use std::alloc::Global;

/// The numbers of calls that complete the same operations, ascending.
#[derive(Drop)]
pub(crate) struct Numbers {
    /// Of those that complete them at the target too.
    pub(crate) remote: Sequence<u32>,
    /// Of those that complete them at the caller alone.
    pub(crate) local: Sequence<u32>,
}

impl Numbers {
    /// None.
    pub(crate) fn new(alloc: Global) -> Numbers
        ensures remote { result.remote ≡ [] }
        ensures local { result.local ≡ [] }
    {
        Numbers {
            remote: Sequence::new(alloc),
            local: Sequence::new(alloc),
        }
    }

    /// Adds a number that is greater than all.
    pub(crate) fn add(&mut self, completion: Completion, number: u32) -> Result<(), Memory>
        ensures { OnOk result ((other : Extent) → numbers_in self.new other ≡ numbers_in self.old other ++ (if same_completion completion other then number ∷ [] else [])) }
    {
        match completion {
            Completion::Remote => self.remote.push(number),
            Completion::Local => self.local.push(number),
        }
    }

    /// Those of calls that complete so far.
    fn of(&self, completion: Completion) -> &[u32]
        ensures { result.now ≡ numbers_in self.now completion }
    {
        match completion {
            Completion::Remote => self.remote.as_slice(),
            Completion::Local => self.local.as_slice(),
        }
    }

    /// The first that is greater than a number, of those of calls that complete so far.
    pub(crate) fn after(&self, completion: Completion, number: u32) -> Option<u32>
        ensures { IsNonDecreasing (numbers_in self.now completion) → result ≡ first_above number (numbers_in self.now completion) }
    {
        first_above(self.of(completion), number)
    }
}

/// The same, where there are any.
pub(crate) fn after_in(own: Option<&Numbers>, completion: Completion, number: u32) -> Option<u32>
    ensures { IsNonDecreasing (listed (option_copied own.entry) completion) → result ≡ first_above number (listed (option_copied own.entry) completion) }
{
    match own {
        Some(own) => own.after(completion, number),
        None => None,
    }
}

/// The first of ascending numbers that is greater than another.
fn first_above(numbers: &[u32], number: u32) -> Option<u32>
    ensures { IsNonDecreasing numbers.now → result ≡ first_above number numbers.now }
{
    let place = numbers.partition_point(|other| *other <= number);
    numbers.get(place).copied()
}

/// The lesser of two numbers, as far as they are there.
pub(crate) fn earlier(number: Option<u32>, other: Option<u32>) -> Option<u32>
    ensures { result ≡ earlier number other }
{
    match (number, other) {
        (None, other) => other,
        (Some(number), None) => Some(number),
        (Some(number), Some(other)) => Some(number.min(other)),
    }
}
