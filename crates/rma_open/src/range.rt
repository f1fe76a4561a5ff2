//! Which bytes of a target's part a call touches.
ghost use Rattle.std.specs.Prelude.{◌≡◌, ◌<◌, ◌^◌, ◌||◌};
ghost use Rattle.rma_open.specs.Range.{is_outside, touches_outside};

use rma_bytes::{Layout, Run};
use rma_window::Part;

/// Whether a byte that is touched at the displacement lies outside the part. Runs ascend, so the first and the last tell.
pub fn touches_outside(part: Part, displacement: u64, touched: &Layout) -> bool
    ensures { result ≡ touches_outside part displacement touched.now.runs }
{
    if touched.is_empty() {
        return false;
    }
    let from = u128::from(displacement) * u128::from(part.unit);
    let first = touched.get(0);
    let last = touched.get(touched.len() - 1);
    either_outside(part.size, from, first, last)
}

/// Whether a byte of either run lies outside a part of this many bytes, where the runs are placed so far from the part's first byte.
fn either_outside(size: u64, from: u128, first: Run, last: Run) -> bool
    requires { from < 2 ^ 96 }
    ensures { result ≡ (is_outside size from first || is_outside size from last) }
{
    is_outside(size, from, first) || is_outside(size, from, last)
}

/// Whether a byte of the run lies outside a part of this many bytes, where the run is placed so far from the part's first byte.
fn is_outside(size: u64, from: u128, run: Run) -> bool
    requires { from < 2 ^ 96 }
    ensures { result ≡ is_outside size from run }
{
    let first = from as i128 + i128::from(run.start);
    let end = first + i128::from(run.len);
    run.len > 0 && (first < 0 || end > i128::from(size))
}
