//! Whether copies of a signature begin with copies of another.
ghost use Rattle.std.specs.Prelude.{◌≡◌, ◌*◌, ◌^◌, ◌<◌, ◌≤◌, ◌++◌, ◌↔◌, IsTrue, length, replicate, Some};
ghost use Rattle.rma_base.specs.Limits.{element_limit};
ghost use Rattle.rma_typemap.specs.Bounds.{signature, entry_count};
ghost use Rattle.rma_typemap.specs.Signature.{copies};
ghost use Rattle.rma_type.specs.Table.{typemaps, typemap_in};
ghost use Rattle.rma_type.specs.Signature.{spread, AreRuns, BeginsWith};
ghost use Rattle.rma_type.specs.inside.Cursor.{rest_from, rest_at, IsCursor};

use crate::id::TypeId;
use crate::sig_run::SigRun;
use crate::table::TypeTable;
use rma_datatype::Basic;

/// A cursor in copies of runs: what is left of its run, the run after it, and how many copies come after this one.
#[derive(Clone, Copy, Debug)]
struct Cursor {
    /// The basic datatype of the run.
    basic: Basic,
    /// How many of it are left, which is not 0.
    left: u64,
    /// The index of the run after it.
    next: usize,
    /// The number of copies after this one.
    more: u64,
}

/// The cursor where a run begins, with `more` further copies.
fn run_at(runs: &[SigRun], next: usize, more: u64) -> Option<Cursor>
    requires apart { AreRuns runs.now }
    ensures rest { rest_at runs.now result ≡ rest_from runs.now next more }
    ensures cursor { IsCursor result }
{
    if next < runs.len() {
        return Some(Cursor {
            basic: runs[next].basic,
            left: runs[next].count,
            next: next + 1,
            more,
        });
    }
    if more == 0 || runs.is_empty() {
        return None;
    }
    Some(Cursor {
        basic: runs[0].basic,
        left: runs[0].count,
        next: 1,
        more: more - 1,
    })
}

/// The cursor where `count` copies begin. Copies of one run are a run.
fn first(runs: &[SigRun], count: u32) -> Option<Cursor>
    requires apart { AreRuns runs.now }
    requires few { length (spread runs.now) < 2 ^ 31 }
    ensures rest { rest_at runs.now result ≡ copies count (spread runs.now) }
    ensures cursor { IsCursor result }
{
    match runs {
        [run] if count > 0 => Some(Cursor {
            basic: run.basic,
            left: u64::from(count) * run.count,
            next: 1,
            more: 0,
        }),
        _ => run_at(runs, runs.len(), u64::from(count)),
    }
}

/// The cursor that is `shared` further on in its run, or where the next one begins.
fn passed(runs: &[SigRun], cursor: Cursor, shared: u64) -> Option<Cursor>
    requires apart { AreRuns runs.now }
    requires within { shared ≤ cursor.left }
    ensures rest { rest_at runs.now (Some cursor) ≡ replicate shared cursor.basic ++ rest_at runs.now result }
    ensures cursor { IsCursor result }
{
    if shared < cursor.left {
        Some(Cursor {
            left: cursor.left - shared,
            ..cursor
        })
    } else {
        run_at(runs, cursor.next, cursor.more)
    }
}

/// Whether `whole_count` copies of the runs `whole` begin with `prefix_count` copies of the runs `prefix`.
pub(crate) fn begins_with(
    whole: &[SigRun],
    whole_count: u32,
    prefix: &[SigRun],
    prefix_count: u32,
) -> bool
    requires whole_apart { AreRuns whole.now }
    requires prefix_apart { AreRuns prefix.now }
    requires whole_few { length (spread whole.now) < 2 ^ 31 }
    requires prefix_few { length (spread prefix.now) < 2 ^ 31 }
    ensures { IsTrue result ↔ BeginsWith (copies whole_count (spread whole.now)) (copies prefix_count (spread prefix.now)) }
{
    let mut there = first(whole, whole_count);
    let mut sought = first(prefix, prefix_count);
    while let Some(wanted) = sought {
        let Some(found) = there else {
            return false;
        };
        if found.basic != wanted.basic {
            return false;
        }
        let shared = found.left.min(wanted.left);
        there = passed(whole, found, shared);
        sought = passed(prefix, wanted, shared);
    }
    true
}

impl TypeTable {
    /// Whether the basic datatypes of `na` copies of `a` are the first of those of `nb` copies of `b`.
    pub fn fits(&self, a: TypeId, na: u32, b: TypeId, nb: u32) -> bool
        requires a_within { a.0 < length self.now.origins }
        requires b_within { b.0 < length self.now.origins }
        requires few { na * entry_count (typemap_in (typemaps self.now.origins) a) ≤ element_limit }
        ensures { IsTrue result ↔ BeginsWith (copies nb (signature (typemap_in (typemaps self.now.origins) b))) (copies na (signature (typemap_in (typemaps self.now.origins) a))) }
    {
        let prefix = self.signature(a);
        if self.share(a, b) {
            return na <= nb || prefix.is_empty();
        }
        begins_with(self.signature(b), nb, prefix, na)
    }
}
