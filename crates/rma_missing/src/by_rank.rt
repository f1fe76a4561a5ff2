//! How many calls of a kind each rank makes on each name, and the fewest that a member makes.
ghost use Rattle.std.specs.Prelude.{◌≡◌, ℕ, ◌||◌, nat_le, IfOk, Some};
ghost use Rattle.std.specs.List.{list_any};
ghost use Rattle.rma_missing.specs.inside.ByRank.{AreCountsByRank, count_in_rank, is_reached};

use crate::name_count;
use indexmap::IndexMap;
use rma_base::{Memory, Name, Sequence};
use rma_call::RankCalls;
use rma_round::Kind;
use std::alloc::Global;

/// The numbers of the calls of the kind that each rank makes on each name.
pub(crate) fn counts_by_rank(
    alloc: Global,
    kind: Kind,
    ranks: &[RankCalls],
) -> Result<Sequence<IndexMap<Name, usize>>, Memory>
    ensures { IfOk result (λ counts_by_rank. AreCountsByRank kind ranks.now counts_by_rank) }
{
    let mut counts_by_rank = Sequence::new(alloc);
    for rank in ranks {
        let counts = name_count::count_all(alloc, kind, rank.calls())?;
        counts_by_rank.push(counts)?;
    }
    Ok(counts_by_rank)
}

/// The fewest calls on the name that any of these members makes, if there is a member.
pub(crate) fn fewest(
    counts_by_rank: &[IndexMap<Name, usize>],
    members: &[u32],
    name: &Name,
) -> Option<usize>
    ensures { (number : ℕ) → list_any (λ m. nat_le (count_in_rank counts_by_rank.now m name.now) number) members.now ≡ is_reached result number }
{
    let mut fewest = None;
    for member in members {
        fewest = Some(fewer(fewest, rank_count(counts_by_rank, *member, name)));
    }
    fewest
}

/// How many calls on the name a rank makes.
fn rank_count(counts_by_rank: &[IndexMap<Name, usize>], rank: u32, name: &Name) -> usize
    ensures { result ≡ count_in_rank counts_by_rank.now rank name.now }
{
    match counts_by_rank.get(rank as usize) {
        Some(counts) => name_count::count(counts, name),
        None => 0,
    }
}

/// The smaller of the numbers.
fn fewer(fewest: Option<usize>, rank_count: usize) -> usize
    ensures { (number : ℕ) → is_reached (Some result) number ≡ (is_reached fewest number || nat_le rank_count number) }
{
    match fewest {
        Some(fewest) => fewest.min(rank_count),
        None => rank_count,
    }
}
