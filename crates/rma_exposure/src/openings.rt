//! The posts of one rank on one window, or its starts.
ghost use Rattle.std.specs.Prelude.{◌≡◌, ◌++◌, ◌∷◌, [], ℕ, None, Some, nat_eq, OnOk, if◌then◌else◌};
ghost use Rattle.rma_exposure.specs.inside.Epochs.{listed, IsOpened};

use indexmap::IndexMap;
use rma_base::{Memory, RankSet, Sequence};
use std::alloc::Global;

/// The posts of one rank on one window, or its starts.
#[derive(Drop)]
pub(crate) struct Openings {
    /// The numbers of those that have a rank in their group, ascending, by the number of the rank.
    pub(crate) numbers: IndexMap<u32, Sequence<u32>>,
    /// The last of them, where no call has closed it.
    pub(crate) pending: Option<u32>,
}

impl Openings {
    /// None.
    pub(crate) fn new(alloc: Global) -> Openings
        ensures numbers { result.numbers.entries ≡ [] }
        ensures pending { result.pending ≡ None }
    {
        Openings {
            numbers: IndexMap::new(alloc),
            pending: None,
        }
    }

    /// Takes the opening of this number and group.
    pub(crate) fn add(&mut self, alloc: Global, number: u32, group: &RankSet) -> Result<(), Memory>
        ensures { OnOk result (IsOpened number group.now (Some self.old) (Some self.new)) }
    {
        for other in group.numbers() {
            list(alloc, &mut self.numbers, *other, number)?;
        }
        self.pending = Some(number);
        Ok(())
    }

    /// The numbers of those that have the rank in their group.
    pub(crate) fn with(&self, other: u32) -> &[u32]
        ensures { result.now ≡ listed self.now.numbers.entries other }
    {
        match self.numbers.get(&other) {
            Some(numbers) => numbers.as_slice(),
            None => &[],
        }
    }
}

/// Puts a number at the end of those of a rank.
fn list(
    alloc: Global,
    numbers: &mut IndexMap<u32, Sequence<u32>>,
    other: u32,
    number: u32,
) -> Result<(), Memory>
    ensures { OnOk result ((rank : ℕ) → listed numbers.new.entries rank ≡ listed numbers.old.entries rank ++ (if nat_eq other rank then number ∷ [] else [])) }
{
    if let Some(own) = numbers.get_mut(&other) {
        return own.push(number);
    }
    let mut own = Sequence::new(alloc);
    own.push(number)?;
    numbers.insert(other, own)?;
    Ok(())
}
