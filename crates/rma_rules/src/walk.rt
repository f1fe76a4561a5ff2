//! A walk over the runs of two accesses at once.
ghost use Rattle.std.specs.Prelude.{◌≡◌, ◌<◌, ◌↔◌, ◌⊎◌, pos, ◌+ℤ◌, IsTrue, IfSome};
ghost use Rattle.rma_bytes.specs.Runs.{end_of, IsInBounds};
ghost use Rattle.rma_rules.specs.inside.Step.{AreInStep, Clash, RunsClash, RunsMeet};

use crate::bytes::Bytes;
use rma_bytes::Run;

/// Whether some run of each share a byte and, where a size is given, do not start a number of elements of that size apart.
pub(crate) fn clash(a: &Bytes<'_>, b: &Bytes<'_>, size: Option<u64>) -> bool
    requires { IfSome size (λ bytes. 0 < bytes) }
    ensures { IsTrue result ↔ Clash size a.now b.now }
{
    let mut i = 0;
    let mut j = 0;
    'walk: while i < a.len() && j < b.len() {
        let x = a.get(i);
        let y = b.get(j);
        if runs_clash(x, y, size) {
            return true;
        }
        if end(x) <= end(y) {
            i += 1;
        } else {
            j += 1;
        }
    }
    false
}

/// Whether two runs share a byte and, where a size is given, do not start a number of elements of that size apart.
fn runs_clash(x: Run, y: Run, size: Option<u64>) -> bool
    requires size { IfSome size (λ bytes. 0 < bytes) }
    requires x { IsInBounds x × (0 < x.len) }
    requires y { IsInBounds y × (0 < y.len) }
    ensures { IsTrue result ↔ RunsClash size x y }
{
    match size {
        Some(size) => runs_meet(x, y) && !are_in_step(x, y, size),
        None => runs_meet(x, y),
    }
}

/// Whether two runs share a byte.
fn runs_meet(x: Run, y: Run) -> bool
    requires x { IsInBounds x × (0 < x.len) }
    requires y { IsInBounds y × (0 < y.len) }
    ensures { IsTrue result ↔ RunsMeet x y }
{
    x.start < end(y) && y.start < end(x)
}

/// Whether one run starts a number of elements of the size after the other.
fn are_in_step(x: Run, y: Run, size: u64) -> bool
    requires size { 0 < size }
    requires x { IsInBounds x }
    requires y { IsInBounds y }
    ensures { IsTrue result ↔ AreInStep size x y }
{
    distance(x.start, y.start) % size == 0
}

/// How far it is from one address to another, whichever is lower.
fn distance(x: i64, y: i64) -> u64
    ensures { (x ≡ y +ℤ pos result) ⊎ (y ≡ x +ℤ pos result) }
{
    x.abs_diff(y)
}

/// The first number after the bytes of the run.
pub(crate) fn end(run: Run) -> i64
    requires { IsInBounds run }
    ensures { result ≡ end_of run }
{
    run.start + run.len as i64
}
