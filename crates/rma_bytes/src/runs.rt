//! Sets of bytes, each as the one ascending list of runs that has them.
ghost use Rattle.std.specs.Prelude.{◌≡◌, ◌+◌, ◌<◌, ◌≤◌, length, map, [], ℤ, ◌+ℤ◌, ◌-ℤ◌, IfOk, IsOk, IsTrue, ◌↔◌, slice_get};
ghost use Rattle.std.specs.List.{All};
ghost use Rattle.rma_bytes.specs.Runs.{IsByteOf, HasByte, SameBytes, IsInBounds, IsWithinBounds, IsCanonical, moved};

use crate::merge::union;
use crate::movement::shift;
use crate::overlap::shared;
use crate::run::Run;
use crate::search::{lies_within, touches};
use rma_base::Memory;
use smallvec::SmallVec;
use std::alloc::Global;
use std::marker::Model;

/// A set of bytes. Contracts see it as the one list of runs that has these bytes, ascends, and has no run that is
/// empty or that overlaps or touches the next. Up to four runs lie inside the value itself.
#[derive(Debug, Drop)]
pub struct Runs {
    /// The runs, ascending and apart.
    runs: SmallVec<Run, 4>,
}

impl Model for Runs {
    ghost use Rattle.std.specs.Prelude.{List};
    ghost use Rattle.rma_bytes.specs.declared.run.Run.{Run};
    ghost use Rattle.rma_bytes.specs.Runs.{IsCanonical};

    ghost Value = { List Run };

    ghost view = { λ set. set.runs.items };

    ghost invariant = { λ set. IsCanonical set.runs.items };
}

impl Runs {
    /// The bytes of all the blocks, which may stand in any order, overlap and be empty. The cost is that of a sort,
    /// and linear where the blocks ascend already.
    pub fn from_blocks(alloc: Global, blocks: &[Run]) -> Result<Runs, Memory>
        requires { All IsInBounds blocks.now }
        ensures bytes { IfOk result (λ runs. SameBytes runs blocks.now) }
        ensures canonical { IfOk result (λ runs. IsCanonical runs) }

        // Four blocks at most take no memory.
        ensures short { length blocks.now ≤ 4 → IsOk result }
    {
        Ok(Runs {
            runs: union(alloc, blocks)?,
        })
    }

    /// The bytes that both sets have, in one walk over the two lists.
    pub fn common(&self, other: &Runs) -> Result<Runs, Memory>
        ensures bytes { IfOk result (λ runs. (b : ℤ) → HasByte runs b ↔ (HasByte self.now b × HasByte other.now b)) }
        ensures canonical { IfOk result (λ runs. IsCanonical runs) }

        // Two lists of five runs at most together take no memory.
        ensures short { length self.now + length other.now ≤ 5 → IsOk result }
    {
        Ok(Runs {
            runs: shared(
                *self.runs.allocator(),
                self.runs.as_slice(),
                other.runs.as_slice(),
                false,
            )?,
        })
    }

    /// The same set again.
    pub fn copy(&self) -> Result<Runs, Memory>
        ensures same { IfOk result (λ runs. runs ≡ self.now) }
        ensures short { length self.now ≤ 4 → IsOk result }
    {
        Ok(Runs {
            runs: SmallVec::from_slice(*self.runs.allocator(), self.runs.as_slice())?,
        })
    }

    /// Whether the sets have a byte in common.
    pub fn meets(&self, other: &Runs) -> bool
        ensures { IsTrue result ↔ ((b : ℤ) × HasByte self.now b × HasByte other.now b) }
    {
        let alloc = *self.runs.allocator();
        match shared(alloc, self.runs.as_slice(), other.runs.as_slice(), true) {
            Ok(runs) => !runs.is_empty(),
            Err(_) => unreachable!(),
        }
    }

    /// Whether a byte of the set lies in the run, by a binary search.
    pub fn meets_run(&self, run: Run) -> bool
        ensures { IsTrue result ↔ ((b : ℤ) × HasByte self.now b × IsByteOf run b) }
    {
        touches(self.runs.as_slice(), run)
    }

    /// Whether each byte of the set lies in the run. Only the first and the last run are looked at.
    pub fn inside(&self, run: Run) -> bool
        ensures { IsTrue result ↔ ((b : ℤ) → HasByte self.now b → IsByteOf run b) }
    {
        lies_within(self.runs.as_slice(), run)
    }

    /// The number of runs.
    pub fn len(&self) -> usize
        ensures value { result ≡ length self.now }
        ensures canonical { IsCanonical self.now }
    {
        self.runs.len()
    }

    /// Whether the set has no byte.
    pub fn is_empty(&self) -> bool
        ensures list { IsTrue result ↔ (self.now ≡ []) }
        ensures bytes { IsTrue result ↔ ((b : ℤ) → ¬ HasByte self.now b) }
    {
        self.runs.is_empty()
    }

    /// The run at an index, from 0, in ascending order.
    pub fn get(&self, i: usize) -> Run
        requires { i < length self.now }
        ensures value { slice_get self.now i ≡ Some result }
        ensures canonical { IsCanonical self.now }
    {
        self.runs[i]
    }

    /// Moves each byte by the same distance, which must leave the bytes within the bounds. It takes no memory.
    pub fn shift(&mut self, by: i64)
        requires { (b : ℤ) → HasByte self.old b → IsWithinBounds (b +ℤ by) }
        ensures runs { self.new ≡ map (moved by) self.old }
        ensures bytes { (b : ℤ) → HasByte self.new b ↔ HasByte self.old (b -ℤ by) }
    {
        shift(self.runs.as_mut_slice(), by);
    }
}
