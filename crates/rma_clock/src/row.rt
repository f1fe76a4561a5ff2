//! How many points of each rank.
ghost use Rattle.std.specs.Prelude.{◌≡◌, ◌+◌, ◌<◌, ◌≤◌, ◌⊎◌, ℕ, length, max, replicate, slice_index, slice_set, IfOk};
ghost use Rattle.rma_clock.specs.inside.Before.{IsLast};

use rma_base::Memory;
use std::alloc::Global;
use std::marker::Model;

/// A number for each rank: how many of its first points are meant.
#[derive(Drop)]
pub(crate) struct Row {
    /// By rank.
    numbers: Vec<u32>,
}

impl Model for Row {
    ghost use Rattle.std.specs.Prelude.{List, ℕ};

    ghost Value = { List ℕ };

    ghost view = { λ row. row.numbers.items };
}

impl Row {
    /// No points, of so many ranks.
    pub(crate) fn new(alloc: Global, ranks: usize) -> Result<Row, Memory>
        ensures { IfOk result (λ row. row ≡ replicate ranks 0) }
    {
        Ok(Row {
            numbers: vec![in alloc; 0; ranks]?,
        })
    }

    /// How many ranks there are.
    pub(crate) fn len(&self) -> usize
        ensures { result ≡ length self.now }
    {
        self.numbers.len()
    }

    /// The numbers by rank.
    pub(crate) fn as_slice(&self) -> &[u32]
        ensures { result.now ≡ self.now }
    {
        self.numbers.as_slice()
    }

    /// The number of the rank.
    pub(crate) fn number(&self, rank: u32) -> u32
        requires { rank < length self.now }
        ensures { result ≡ slice_index self.now rank }
    {
        self.numbers[rank as usize]
    }

    /// The last of the first points of the rank, so many, by its position.
    pub(crate) fn last(&self, rank: u32) -> Option<u32>
        ensures { IsLast (slice_index self.now rank) result }
    {
        match self.numbers.get(rank as usize) {
            Some(number) => number.checked_sub(1),
            None => None,
        }
    }

    /// Raises the number of the rank to this one.
    pub(crate) fn raise(&mut self, rank: u32, number: u32)
        requires { rank < length self.old }
        ensures { self.new ≡ slice_set self.old rank (max (slice_index self.old rank) number) }
    {
        self.numbers[rank as usize] = self.numbers[rank as usize].max(number);
    }

    /// Raises each number to the one of another row.
    pub(crate) fn join(&mut self, other: &Row)
        requires { length other.now ≡ length self.old }
        ensures size { length self.new ≡ length self.old }
        ensures each { (rank : ℕ) → slice_index self.new rank ≡ max (slice_index self.old rank) (slice_index other.now rank) }
    {
        raise_all(&mut self.numbers, &other.numbers);
    }

    /// Raises the numbers from one rank on, each to the one beside it.
    pub(crate) fn raise_part(&mut self, first: usize, others: &[u32])
        requires { first + length others.now ≤ length self.old }
        ensures size { length self.new ≡ length self.old }
        ensures part { (k : ℕ) → k < length others.now → slice_index self.new (first + k) ≡ max (slice_index self.old (first + k)) (slice_index others.now k) }
        ensures before { (rank : ℕ) → rank < first → slice_index self.new rank ≡ slice_index self.old rank }
        ensures after { (rank : ℕ) → first + length others.now ≤ rank → slice_index self.new rank ≡ slice_index self.old rank }
    {
        raise_from(&mut self.numbers, first, others);
    }
}

/// Raises each number to the one beside it.
fn raise_all(numbers: &mut [u32], others: &[u32])
    requires { length others.now ≡ length numbers.old }
    ensures { (rank : ℕ) → slice_index numbers.new rank ≡ max (slice_index numbers.old rank) (slice_index others.now rank) }
{
    for rank in 0..numbers.len() {
        numbers[rank] = numbers[rank].max(others[rank]);
    }
}

/// Raises the numbers from one rank on, each to the one beside it.
fn raise_from(numbers: &mut [u32], first: usize, others: &[u32])
    requires { first + length others.now ≤ length numbers.old }
    ensures part { (k : ℕ) → k < length others.now → slice_index numbers.new (first + k) ≡ max (slice_index numbers.old (first + k)) (slice_index others.now k) }
    ensures before { (rank : ℕ) → rank < first → slice_index numbers.new rank ≡ slice_index numbers.old rank }
    ensures after { (rank : ℕ) → first + length others.now ≤ rank → slice_index numbers.new rank ≡ slice_index numbers.old rank }
{
    for k in 0..others.len() {
        numbers[first + k] = numbers[first + k].max(others[k]);
    }
}
