//! How many accesses a run has.
ghost use Rattle.std.specs.Prelude.{◌<◌, List, length};
ghost use Rattle.rma_call.specs.Call.{RankCalls};
ghost use Rattle.rma_span.specs.Span.{origin_of, spanned_calls};
ghost use Rattle.rma_accesses.specs.inside.Kept.{AreAccessesOf, IsAccessesOf};

use crate::accesses::ROLES;
use rma_accesses::{RankAccesses, RunAccesses};

/// How many accesses a run has: each is made.
pub fn count_accesses(accesses: &RunAccesses<'_, '_>) -> u64
    requires { (ranks : List RankCalls) × AreAccessesOf ranks accesses.now }
{
    let mut count = 0u64;
    for own in accesses.ranks.as_slice() {
        count = count.saturating_add(count_rank(own));
    }
    count
}

/// How many accesses a rank has.
fn count_rank(own: &RankAccesses<'_, '_>) -> u64
    requires { (ranks : List RankCalls) × IsAccessesOf ranks own.now }
{
    let mut count = 0u64;
    for index in 0..own.len() {
        count = count.saturating_add(count_call(own, index));
    }
    count
}

/// How many accesses the call at an index makes, among those that access memory.
fn count_call(own: &RankAccesses<'_, '_>, index: usize) -> u64
    requires { (ranks : List RankCalls) × IsAccessesOf ranks own.now × index < length (spanned_calls (origin_of ranks own.now.own.now)) }
{
    let mut count = 0u64;
    for role in ROLES {
        if own.access(index, role).is_some() {
            count = count.saturating_add(1);
        }
    }
    count
}
