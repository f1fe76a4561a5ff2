//! Which bytes are asked for what else touches them.
ghost use Rattle.std.specs.Prelude.{◌≡◌, ℤ, ◌≤ℤ◌, IfOk, IsTrue};
ghost use Rattle.rma_bytes.specs.Runs.{end_of, HasByte, IsInBounds};
ghost use Rattle.rma_history.specs.inside.Hull.{IsWithin};

use rma_base::Memory;
use rma_bytes::{Run, Runs};
use rma_rules::Bytes;
use smallvec::SmallVec;
use std::alloc::Global;

/// The addresses from the first byte of an access to its last.
#[derive(Clone, Copy, Debug)]
pub(crate) struct Hull {
    /// The first address.
    pub start: i64,
    /// The first address after them.
    pub end: i64,
}

impl Hull {
    /// The addresses from the first of some bytes to the last.
    pub(crate) fn of(bytes: &Bytes<'_>) -> Hull
        ensures { (b : ℤ) → HasByte bytes.now b → IsWithin result b }
    {
        if bytes.is_empty() {
            return Hull { start: 0, end: 0 };
        }
        let first = bytes.get(0);
        let last = bytes.get(bytes.len() - 1);
        Hull {
            start: first.start,
            end: end(last),
        }
    }

    /// Whether both have an address in common.
    pub(crate) fn meets(self, other: Hull) -> bool
        ensures { (b : ℤ) → IsWithin self b → IsWithin other b → IsTrue result }
    {
        self.start < other.end && other.start < self.end
    }
}

/// The first address after a run.
fn end(run: Run) -> i64
    requires { IsInBounds run }
    ensures { result ≡ end_of run }
{
    run.start + run.len as i64
}

/// Of an access with more runs than these, all that lies between its first byte and its last counts as touched.
const MOST_RUNS: usize = 64;

/// The bytes of an access, and where these are many runs, those between them: so that its cost does not grow with their number.
///
/// # Errors
///
/// `Memory` where there is none left.
pub(crate) fn reach_of(alloc: Global, bytes: &Bytes<'_>) -> Result<Runs, Memory>
    ensures { IfOk result (λ runs. (b : ℤ) → HasByte bytes.now b → HasByte runs b) }
{
    if bytes.len() <= MOST_RUNS {
        each_of(alloc, bytes)
    } else {
        all_between(alloc, bytes)
    }
}

/// The bytes of an access as a set of their own.
fn each_of(alloc: Global, bytes: &Bytes<'_>) -> Result<Runs, Memory>
    ensures { IfOk result (λ runs. (b : ℤ) → HasByte bytes.now b → HasByte runs b) }
{
    let mut blocks: SmallVec<Run, 4> = SmallVec::new(alloc);
    for i in 0..bytes.len() {
        blocks.push(bytes.get(i))?;
    }
    Runs::from_blocks(alloc, blocks.as_slice())
}

/// All from the first byte of an access to its last, where it has one.
fn all_between(alloc: Global, bytes: &Bytes<'_>) -> Result<Runs, Memory>
    ensures { IfOk result (λ runs. (b : ℤ) → HasByte bytes.now b → HasByte runs b) }
{
    if bytes.is_empty() {
        return Runs::from_blocks(alloc, &[]);
    }
    let first = bytes.get(0);
    let last = bytes.get(bytes.len() - 1);
    Runs::from_blocks(alloc, &[between(first, last)])
}

/// All from the first byte of one run to the last of another.
fn between(first: Run, last: Run) -> Run
    requires first { IsInBounds first }
    requires last { IsInBounds last }
    requires in_order { first.start ≤ℤ last.start }
    ensures start { result.start ≡ first.start }
    ensures end { end_of result ≡ end_of last }
{
    let from_first = (last.start - first.start) as u64;
    Run {
        start: first.start,
        len: from_first + last.len,
    }
}
