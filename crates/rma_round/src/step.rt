//! Ranks that go in step.
ghost use Rattle.std.specs.Prelude.{◌≡◌, ◌≢◌, ◌<◌, ℕ, List, true, false, length, All, IfOk};
ghost use Rattle.rma_call.specs.Call.{Call};
ghost use Rattle.rma_round.specs.declared.kind.Kind.{Kind};
ghost use Rattle.rma_round.specs.Step.{DifferOn, DifferSomewhere, GoInStep, GoInStepOn};
ghost use Rattle.rma_round.specs.inside.Rounds.{AreOfKind, AreOnName, Represents};
ghost use Rattle.rma_round.specs.inside.Step.{AnyDiffers, AreOfRow, AreTheSame, IsAs, RowsDiffer};

use crate::kind_rounds::KindRounds;
use crate::name_rounds::{NameRounds, RankRounds};
use crate::rounds::Rounds;
use rma_base::Memory;
use std::alloc::Global;

impl Rounds {
    /// Whether the ranks go in step: the calls of each round have one number. It is told where all ranks that make calls in
    /// rounds on a name make as many, as those of a run do in which nothing is missing. Where it is not told, two ranks that both make
    /// calls in rounds on some name make them by other numbers, or not as many.
    ///
    /// # Errors
    ///
    /// `Memory` where there is none left.
    pub fn are_in_step(&self) -> Result<bool, Memory>
        ensures step { IfOk result (λ yes. yes ≡ true → (calls : ℕ → List Call) → Represents calls self.now → GoInStep calls) }
        ensures differ { IfOk result (λ yes. yes ≡ false → (calls : ℕ → List Call) → Represents calls self.now → DifferSomewhere calls) }
    {
        if !self.collectives.are_in_step(self.alloc)? {
            return Ok(false);
        }
        if !self.frees.are_in_step(self.alloc)? {
            return Ok(false);
        }
        if !self.fences.are_in_step(self.alloc)? {
            return Ok(false);
        }
        self.movings.are_in_step(self.alloc)
    }
}

impl KindRounds {
    /// Whether the calls of each round of the kind have one number.
    fn are_in_step(&self, alloc: Global) -> Result<bool, Memory>
        ensures step { IfOk result (λ yes. yes ≡ true → (kind : Kind) (calls : ℕ → List Call) → AreOfKind kind calls self.now → (name : List ℕ) → GoInStepOn kind name calls) }
        ensures differ { IfOk result (λ yes. yes ≡ false → (kind : Kind) (calls : ℕ → List Call) → AreOfKind kind calls self.now → (name : List ℕ) × DifferOn kind name calls) }
    {
        for i in 0..self.len() {
            if !self.rounds(i).are_in_step(alloc)? {
                return Ok(false);
            }
        }
        Ok(true)
    }
}

impl NameRounds {
    /// Whether the calls of each round on the name have one number.
    fn are_in_step(&self, alloc: Global) -> Result<bool, Memory>
        ensures step { IfOk result (λ yes. yes ≡ true → (kind : Kind) (name : List ℕ) (calls : ℕ → List Call) → AreOnName kind name calls self.now → GoInStepOn kind name calls) }
        ensures differ { IfOk result (λ yes. yes ≡ false → (kind : Kind) (name : List ℕ) (calls : ℕ → List Call) → AreOnName kind name calls self.now → DifferOn kind name calls) }
    {
        let rows = self.ranks(alloc)?;
        Ok(are_the_same(rows.as_slice()))
    }
}

/// Whether all ranks that have calls have calls of the same numbers.
fn are_the_same(rows: &[RankRounds<'_>]) -> bool
    ensures same { result ≡ true → AreTheSame rows.now }
    ensures differ { result ≡ false → RowsDiffer rows.now }
{
    are_as(first_numbers(rows), rows)
}

/// The numbers of the calls of the first rank that has calls; where no rank has any, no numbers.
fn first_numbers<'a>(rows: &[RankRounds<'a>]) -> &'a [u32]
    ensures { AreOfRow result.now rows.now }
{
    for i in 0..rows.len() {
        let numbers = rows[i].numbers;
        if !numbers.is_empty() {
            return numbers;
        }
    }
    &[]
}

/// Whether all ranks that have calls have calls of these numbers.
fn are_as(numbers: &[u32], rows: &[RankRounds<'_>]) -> bool
    ensures same { result ≡ true → All (IsAs numbers.now) rows.now }
    ensures differ { result ≡ false → AnyDiffers numbers.now rows.now }
{
    for i in 0..rows.len() {
        if !is_as(numbers, rows[i].numbers) {
            return false;
        }
    }
    true
}

/// Whether a rank has no calls, or calls of these numbers.
fn is_as(numbers: &[u32], own: &[u32]) -> bool
    ensures same { result ≡ true → 0 < length own.now → own.now ≡ numbers.now }
    ensures differ { result ≡ false → (0 < length own.now) × (own.now ≢ numbers.now) }
{
    own.is_empty() || own == numbers
}
