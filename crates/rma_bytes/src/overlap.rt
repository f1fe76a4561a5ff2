//! What two sets share, by a walk over both lists at once.
ghost use Rattle.std.specs.Prelude.{◌≡◌, ◌+◌, ◌≤◌, [], length, true, false, ℤ, IfOk, IsOk};
ghost use Rattle.rma_bytes.specs.Runs.{HasByte, IsCanonical};

use crate::merge::keep;
use crate::run::{Run, end, overlap};
use rma_base::Memory;
use smallvec::SmallVec;
use std::alloc::Global;

/// The runs of the bytes that both sets have: all of them, or the first alone, which takes no memory.
pub(crate) fn shared(
    alloc: Global,
    mine: &[Run],
    theirs: &[Run],
    first_alone: bool,
) -> Result<SmallVec<Run, 4>, Memory>
    requires mine { IsCanonical mine.now }
    requires theirs { IsCanonical theirs.now }
    ensures within { IfOk result (λ runs. (b : ℤ) → HasByte runs.items b → HasByte mine.now b × HasByte theirs.now b) }
    ensures all { first_alone ≡ false → IfOk result (λ runs. (b : ℤ) → HasByte mine.now b → HasByte theirs.now b → HasByte runs.items b) }
    ensures none { IfOk result (λ runs. runs.items ≡ [] → (b : ℤ) → HasByte mine.now b → ¬ HasByte theirs.now b) }
    ensures canonical { IfOk result (λ runs. IsCanonical runs.items) }
    ensures short { length mine.now + length theirs.now ≤ 5 → IsOk result }
    ensures first { first_alone ≡ true → IsOk result }
{
    let mut runs = SmallVec::new(alloc);
    let mut i = 0;
    let mut j = 0;
    'walk: while i < mine.len() && j < theirs.len() {
        if first_alone && !runs.is_empty() {
            return Ok(runs);
        }
        keep(&mut runs, overlap(mine[i], theirs[j]))?;
        if end(mine[i]) <= end(theirs[j]) {
            i += 1;
        } else {
            j += 1;
        }
    }
    Ok(runs)
}
