//! Sets of ranks, as groups and communicators have them.
ghost use Rattle.std.specs.Prelude.{◌≡◌, map, true, false, IfOk, OnOk, IsErrOf, ◌∷◌};
ghost use Rattle.std.specs.List.Sorted.{IsStrictlyIncreasing, IsPermutation};
ghost use Rattle.rma_base.specs.RankSet.{number_of, has_repeat, has_number, placed, ascending};

use crate::memory::Memory;
use crate::rank::Rank;
use std::alloc::Global;
use std::marker::Model;
use std::rc::Rc;
use thiserror::Error;

/// A set of ranks. Copies share one list of their numbers.
#[derive(Debug, Drop)]
pub struct RankSet {
    /// The numbers, ascending.
    numbers: Rc<Vec<u32>>,
}

impl Model for RankSet {
    ghost use Rattle.std.specs.Prelude.{ℕ, List};
    ghost use Rattle.std.specs.List.Sorted.{IsStrictlyIncreasing};

    ghost Value = { List ℕ };

    ghost view = { λ set. set.numbers.value.items };

    ghost invariant = { λ set. IsStrictlyIncreasing set.numbers.value.items };
}

/// Why a list of ranks makes no set.
#[derive(Clone, Copy, Debug, PartialEq, Eq, Error)]
pub enum RankSetError {
    /// A rank stands twice.
    #[error("refused")]
    Repeated,
    /// Memory ran out.
    #[error("memory")]
    Memory,
}

impl RankSet {
    /// The set of these ranks.
    pub fn new(alloc: Global, ranks: &[Rank]) -> Result<RankSet, RankSetError>
        ensures ok { IfOk result (λ set. IsPermutation (map number_of ranks.now) set) }
        ensures ascending { IfOk result (λ set. IsStrictlyIncreasing set) }
        ensures sorted { IfOk result (λ set. set ≡ ascending (map number_of ranks.now)) }
        ensures none { OnOk result (has_repeat (map number_of ranks.now) ≡ false) }
        ensures repeated { IsErrOf result RankSetError.Repeated → has_repeat (map number_of ranks.now) ≡ true }
    {
        let mut numbers = Vec::new(alloc);
        for rank in ranks {
            place(&mut numbers, rank.0)?;
        }
        match Rc::new(alloc, numbers) {
            Ok(numbers) => Ok(RankSet { numbers }),
            Err(_) => Err(RankSetError::Memory),
        }
    }

    /// Whether the rank is in the set.
    pub fn has(&self, rank: Rank) -> bool
        ensures { result ≡ has_number rank.0 self.now }
    {
        self.numbers().binary_search(&rank.0).is_ok()
    }

    /// The numbers of the ranks, ascending.
    pub fn numbers(&self) -> &[u32]
        ensures numbers { result.now ≡ self.now }
        ensures ascending { IsStrictlyIncreasing self.now }
    {
        self.numbers.as_slice()
    }

    /// A set of the same ranks.
    pub fn copy(&self) -> Result<RankSet, Memory>
        ensures { IfOk result (λ set. set ≡ self.now) }
    {
        match self.numbers.clone() {
            Ok(numbers) => Ok(RankSet { numbers }),
            Err(_) => Err(Memory),
        }
    }
}

// Puts the number in its place among ascending ones.
fn place(numbers: &mut Vec<u32>, number: u32) -> Result<(), RankSetError>
    requires { IsStrictlyIncreasing numbers.old.items }
    ensures ascending { OnOk result (IsStrictlyIncreasing numbers.new.items) }
    ensures placed { OnOk result (IsPermutation (number ∷ numbers.old.items) numbers.new.items) }
    ensures sorted { OnOk result (numbers.new.items ≡ placed number numbers.old.items) }
    ensures is_new { OnOk result (has_number number numbers.old.items ≡ false) }
    ensures repeated { IsErrOf result RankSetError.Repeated → has_number number numbers.old.items ≡ true }
{
    match numbers.binary_search(&number) {
        Ok(_) => Err(RankSetError::Repeated),
        Err(index) => match numbers.insert(index, number) {
            Ok(()) => Ok(()),
            Err(_) => Err(RankSetError::Memory),
        },
    }
}
