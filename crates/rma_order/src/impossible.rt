//! The calls that are never left.
ghost use Rattle.std.specs.Prelude.{◌≡◌, ◌≢◌, ◌≤◌, ◌++◌, [], length, IfOk, OnOk};
ghost use Rattle.std.specs.List.{cons_option};
ghost use Rattle.std.specs.Option.{option_and_then};
ghost use Rattle.rma_link.specs.declared.links.Links.{Links};
ghost use Rattle.rma_run.specs.Run.{IsRun, lens_of};
ghost use Rattle.rma_match.specs.Matches.{AreMatches};
ghost use Rattle.rma_walk.specs.Outcome.{IsStuck};
ghost use Rattle.rma_order.specs.RunLinks.{LinkTheSame, links_of};
ghost use Rattle.rma_order.specs.Impossible.{AreImpossibleCalls, first_at, told, told_all};

use crate::counts::call_counts;
use crate::links::{run_edges, with_meets};
use crate::step::are_in_step;
use rma_base::limits::RANKS;
use rma_base::{LineNo, Memory, Rank, Sequence};
use rma_call::RankCalls;
use rma_link::Links;
use rma_match::Matches;
use rma_walk::first_impossible_calls;
use std::alloc::Global;

/// The first call of a rank that is never left.
#[derive(Clone, Copy, Debug, PartialEq, Eq)]
pub struct ImpossibleCall {
    /// The rank that makes it.
    pub rank: Rank,
    /// Its line.
    pub line: LineNo,
}

/// The first call of each rank that is never left in a run with these matches, by rank: there is none where the run is possible.
///
/// The time and the memory that it takes grow with the calls and their links.
///
/// # Errors
///
/// `Memory`, also where there are more ranks than a run may have.
pub fn impossible_calls(
    alloc: Global,
    ranks: &[RankCalls],
    matches: &Matches,
) -> Result<Sequence<ImpossibleCall>, Memory>
    requires run { IsRun ranks.now }
    requires matches { AreMatches ranks.now matches.now }
    ensures { IfOk result (AreImpossibleCalls ranks.now) }
{
    if ranks.len() > RANKS {
        return Err(Memory);
    }
    let edges = run_edges(alloc, ranks, matches)?;
    if are_in_step(edges.edges.as_slice(), &matches.rounds)? {
        return Ok(Sequence::new(alloc));
    }
    walked(alloc, ranks, matches, edges)
}

/// The same of a run with these edges, by a walk.
fn walked(
    alloc: Global,
    ranks: &[RankCalls],
    matches: &Matches,
    edges: Links,
) -> Result<Sequence<ImpossibleCall>, Memory>
    requires few { length ranks.now ≤ RANKS }
    requires run { IsRun ranks.now }
    requires matches { AreMatches ranks.now matches.now }
    requires edges { edges.edges ≡ (links_of ranks.now).edges }
    requires meets { edges.meets ≡ [] }
    ensures { IfOk result (AreImpossibleCalls ranks.now) }
{
    let counts = call_counts(alloc, ranks)?;
    let links = with_meets(ranks, matches, edges)?;
    match first_impossible_calls(alloc, &counts, &links)? {
        None => Ok(Sequence::new(alloc)),
        Some(firsts) => stuck_calls(alloc, ranks, firsts.as_slice()),
    }
}

/// The first call of each rank that is never left, by rank, where a walk over the links of a run found these numbers. There is at
/// least one.
///
/// # Errors
///
/// `Memory` where there is none left.
pub fn stuck_calls(
    alloc: Global,
    ranks: &[RankCalls],
    firsts: &[Option<u32>],
) -> Result<Sequence<ImpossibleCall>, Memory>
    requires { IsRun ranks.now }
    ensures calls { IfOk result (λ found. (links : Links) → LinkTheSame links (links_of ranks.now) → IsStuck (lens_of ranks.now) links firsts.now → AreImpossibleCalls ranks.now found) }
    ensures some { IfOk result (λ found. (links : Links) → LinkTheSame links (links_of ranks.now) → IsStuck (lens_of ranks.now) links firsts.now → found ≢ []) }
{
    told_all(alloc, ranks, firsts)
}

/// The calls of these numbers, by rank.
fn told_all(
    alloc: Global,
    ranks: &[RankCalls],
    firsts: &[Option<u32>],
) -> Result<Sequence<ImpossibleCall>, Memory>
    ensures { IfOk result (λ found. found ≡ told_all ranks.now firsts.now) }
{
    let mut found = Sequence::new(alloc);
    for (rank, own) in ranks.iter().enumerate() {
        push_told(&mut found, own, first_at(firsts, rank))?;
    }
    Ok(found)
}

/// The number of the call of the rank at an index, if it has one.
fn first_at(firsts: &[Option<u32>], rank: usize) -> Option<u32>
    ensures { result ≡ first_at firsts.now rank }
{
    match firsts.get(rank) {
        Some(first) => *first,
        None => None,
    }
}

/// Appends the call of this number of a rank, if there is one.
fn push_told(
    found: &mut Sequence<ImpossibleCall>,
    own: &RankCalls,
    first: Option<u32>,
) -> Result<(), Memory>
    ensures { OnOk result (found.new ≡ found.old ++ cons_option (option_and_then (told own.now) first) []) }
{
    let Some(number) = first else {
        return Ok(());
    };
    let calls = own.calls();
    if number as usize >= calls.len() {
        return Ok(());
    }
    found.push(ImpossibleCall {
        rank: own.rank(),
        line: calls.get(number as usize).line,
    })
}
