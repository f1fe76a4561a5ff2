//! Accesses by their names.
ghost use Rattle.std.specs.Prelude.{◌≡◌, ◌↔◌, ◌<◌, ◌≤◌, ℕ, List, Contains, Some, length};
ghost use Rattle.rma_call.specs.Call.{RankCalls};
ghost use Rattle.rma_rules.specs.Access.{Access};
ghost use Rattle.rma_span.specs.Span.{accesses, origin_of, spanned_calls};
ghost use Rattle.rma_accesses.specs.Run.{AreGood};
ghost use Rattle.rma_accesses.specs.inside.Kept.{AreAccessesOf, rank_of};
ghost use Rattle.rma_explain.specs.inside.Line.{IsLineAt, IsOfLog};

use rma_accesses::{RankAccesses, RunAccesses};
use rma_base::LineNo;
use rma_call::{CallList, RankCalls};
use rma_rules::{Access, AccessName};

/// The access of a run of good logs that has this name, if there is one. It takes the time of a binary search among the calls of its
/// rank.
pub fn access_named<'a>(
    ranks: &[RankCalls],
    run: &'a RunAccesses<'_, '_>,
    name: AccessName,
) -> Option<Access<'a>>
    requires good { AreGood ranks.now }
    requires accesses { AreAccessesOf ranks.now run.now }
    ensures { (access : Access) → (result ≡ Some access) ↔ (Contains (accesses ranks.now) access × (access.name ≡ name)) }
{
    let rank = name.rank.0 as usize;
    if rank >= ranks.len() {
        return None;
    }
    let own = &run.ranks[rank];
    let index = index_at(ranks[rank].calls(), own, name.line)?;
    own.access(index, name.role)
}

/// Where the call that a line records stands among the calls of its rank that access memory, if it is one of them.
fn index_at(calls: &CallList, own: &RankAccesses<'_, '_>, line: LineNo) -> Option<usize>
    requires { (ranks : List RankCalls) × IsOfLog ranks calls.now own.now }
    ensures { (ranks : List RankCalls) (index : ℕ) → IsOfLog ranks calls.now own.now → (result ≡ Some index) ↔ IsLineAt ranks (rank_of own.now) index line.0 }
{
    let index = count_before(calls, own, line);
    if index < own.len() && line_at(calls, own, index).0 == line.0 {
        Some(index)
    } else {
        None
    }
}

/// How many of the calls of a rank that access memory have a line before this one.
fn count_before(calls: &CallList, own: &RankAccesses<'_, '_>, line: LineNo) -> usize
    requires { (ranks : List RankCalls) × IsOfLog ranks calls.now own.now }
    ensures before { (ranks : List RankCalls) (index at : ℕ) → IsOfLog ranks calls.now own.now → IsLineAt ranks (rank_of own.now) index at → index < result → at < line.0 }
    ensures after { (ranks : List RankCalls) (index at : ℕ) → IsOfLog ranks calls.now own.now → IsLineAt ranks (rank_of own.now) index at → result ≤ index → line.0 ≤ at }
{
    let mut low = 0;
    let mut high = own.len();
    'search: while low < high {
        let middle = low + (high - low) / 2;
        if line_at(calls, own, middle).0 < line.0 {
            low = middle + 1;
        } else {
            high = middle;
        }
    }
    low
}

/// The line of the call at an index among those that access memory.
fn line_at(calls: &CallList, own: &RankAccesses<'_, '_>, index: usize) -> LineNo
    requires { (ranks : List RankCalls) × IsOfLog ranks calls.now own.now × index < length (spanned_calls (origin_of ranks (rank_of own.now))) }
    ensures { (ranks : List RankCalls) → IsOfLog ranks calls.now own.now → IsLineAt ranks (rank_of own.now) index result.0 }
{
    calls.get(own.call(index) as usize).line
}
