//! The rounds of one kind on one name.
ghost use Rattle.std.specs.Prelude.{◌≡◌, ◌≤◌, ◌<◌, ◌++◌, ◌∷◌, [], ℕ, List, length, nat_eq, IfOk, OnOk, if◌then◌else◌};
ghost use Rattle.std.specs.Ordering.{nat_cmp};
ghost use Rattle.std.specs.BTreeMap.{IsOrdered};
ghost use Rattle.rma_call.specs.Call.{Call, RankCalls};
ghost use Rattle.rma_run.specs.Run.{IsRun, calls_of};
ghost use Rattle.rma_round.specs.declared.kind.Kind.{Kind};
ghost use Rattle.rma_round.specs.Round.{numbers, place_in};
ghost use Rattle.rma_round.specs.inside.Rounds.{listed, calls_in, rounds_in, row_entries, AreOnName, AreRows};
ghost use Rattle.rma_round.specs.inside.Met.{name_meets};

use crate::meet::{Turn, push_rounds};
use rma_base::{Memory, Rank, Sequence};
use rma_call::RankCalls;
use rma_link::Links;
use std::alloc::Global;
use std::collections::BTreeMap;

/// The calls of a rank in the rounds of one kind on one name.
#[derive(Clone, Copy)]
pub struct RankRounds<'a> {
    /// The rank.
    pub rank: Rank,
    /// The numbers of its calls, ascending: the k-th one is in round k.
    pub numbers: &'a [u32],
}

/// The rounds of one kind on one name.
#[derive(Drop)]
pub struct NameRounds {
    /// The numbers of the calls of each rank, ascending, by the number of the rank: the k-th one is in round k.
    ranks: BTreeMap<u32, Sequence<u32>>,
}

impl NameRounds {
    /// None.
    pub(crate) fn new(alloc: Global) -> NameRounds
        ensures { result.ranks.entries ≡ [] }
    {
        NameRounds {
            ranks: BTreeMap::new(alloc),
        }
    }

    /// Takes the call of this number of a rank.
    pub(crate) fn add(&mut self, alloc: Global, rank: Rank, number: u32) -> Result<(), Memory>
        ensures { OnOk result ((other : ℕ) → listed self.new.ranks.entries other ≡ listed self.old.ranks.entries other ++ (if nat_eq rank.0 other then number ∷ [] else [])) }
    {
        if let Some(own) = self.ranks.get_mut(&rank.0) {
            return own.push(number);
        }
        let mut own = Sequence::new(alloc);
        own.push(number)?;
        self.ranks.insert(rank.0, own)?;
        Ok(())
    }

    /// Takes all calls of a rank of which none is taken yet, by their numbers.
    pub(crate) fn put(&mut self, rank: Rank, own: Sequence<u32>) -> Result<(), Memory>
        ensures { OnOk result ((other : ℕ) → calls_in self.new other ≡ (if nat_eq rank.0 other then own else calls_in self.old other)) }
    {
        self.ranks.insert(rank.0, own)?;
        Ok(())
    }

    /// The numbers of the calls of a rank, ascending.
    pub fn of(&self, rank: Rank) -> &[u32]
        ensures { result.now ≡ calls_in self.now rank.0 }
    {
        match self.ranks.get(&rank.0) {
            Some(numbers) => numbers.as_slice(),
            None => &[],
        }
    }

    /// How many rounds there are, which is the most calls that a rank has.
    pub fn len(&self) -> usize
        ensures count { result ≡ rounds_in self.now }
        ensures most { (rank : ℕ) → length (calls_in self.now rank) ≤ result }
    {
        let mut most: usize = 0;
        for (_, numbers) in self.ranks.iter() {
            most = most.max(numbers.len());
        }
        most
    }

    /// The ranks that have calls, with their calls, by rank.
    ///
    /// # Errors
    ///
    /// `Memory` where there is none left.
    pub fn ranks(&self, alloc: Global) -> Result<Sequence<RankRounds<'_>>, Memory>
        ensures { IfOk result (AreRows self.now) }
    {
        self.rows(alloc)
    }

    /// The same.
    fn rows(&self, alloc: Global) -> Result<Sequence<RankRounds<'_>>, Memory>
        ensures entries { IfOk result (λ rows. row_entries rows ≡ self.now.ranks.entries) }
        ensures ordered { IsOrdered nat_cmp self.now.ranks }
    {
        let mut rows = Sequence::new(alloc);
        for (rank, numbers) in self.ranks.iter() {
            rows.push(RankRounds {
                rank: Rank(*rank),
                numbers: numbers.as_slice(),
            })?;
        }
        Ok(rows)
    }

    /// Appends the meet of each round of this turn of which a call waits for all.
    pub(crate) fn push_meets(
        &self,
        alloc: Global,
        ranks: &[RankCalls],
        turn: Turn,
        links: &mut Links,
    ) -> Result<(), Memory>
        requires run { IsRun ranks.now }
        requires turn { turn.number < turn.of }
        ensures edges { OnOk result (links.new.edges ≡ links.old.edges) }
        ensures meets { OnOk result ((kind : Kind) (name : List ℕ) → AreOnName kind name (calls_of ranks.now) self.now
            → links.new.meets ≡ links.old.meets ++ name_meets ranks.now kind turn.of turn.number (name, self.now)) }
    {
        let rows = self.rows(alloc)?;
        push_rounds(alloc, ranks, rows.as_slice(), self.len(), turn, links)
    }
}

/// Where a number stands among the calls of a rank.
pub(crate) fn place_in(own: &[u32], number: u32) -> Option<usize>
    ensures { (kind : Kind) (name : List ℕ) (calls : List Call) → own.now ≡ numbers kind name calls → result ≡ place_in kind name calls number }
{
    match own.binary_search(&number) {
        Ok(place) => Some(place),
        Err(_) => None,
    }
}
