//! The bytes that two accesses share.
ghost use Rattle.std.specs.Prelude.{IfOk};
ghost use Rattle.rma_bytes.specs.Runs.{SameBytes};
ghost use Rattle.rma_pairs.specs.Race.{AreCommon};

use rma_base::Memory;
use rma_bytes::Runs;
use rma_rules::{Access, Bytes};
use std::alloc::Global;

/// The bytes that two accesses share, in one walk over the runs of both.
///
/// # Errors
///
/// `Memory` where there is none left.
pub fn common_bytes(alloc: Global, a: &Access<'_>, b: &Access<'_>) -> Result<Runs, Memory>
    ensures { IfOk result (AreCommon a.now b.now) }
{
    let first = runs_of(alloc, &a.bytes)?;
    let second = runs_of(alloc, &b.bytes)?;
    first.common(&second)
}

/// Some bytes as a set of their own.
fn runs_of(alloc: Global, bytes: &Bytes<'_>) -> Result<Runs, Memory>
    ensures { IfOk result (λ runs. SameBytes runs bytes.now) }
{
    let mut blocks = Vec::new(alloc);
    for i in 0..bytes.len() {
        blocks.push(bytes.get(i))?;
    }
    Runs::from_blocks(alloc, blocks.as_slice())
}
