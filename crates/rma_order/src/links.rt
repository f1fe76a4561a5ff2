//! The links of a run.
ghost use Rattle.std.specs.Prelude.{◌≡◌, [], IfOk};
ghost use Rattle.rma_run.specs.Run.{IsRun, lens_of};
ghost use Rattle.rma_match.specs.Matches.{AreMatches};
ghost use Rattle.rma_link.specs.Within.{AreWithin};
ghost use Rattle.rma_order.specs.RunLinks.{LinkTheSame, links_of};

use rma_base::Memory;
use rma_call::RankCalls;
use rma_link::Links;
use rma_match::Matches;
use std::alloc::Global;

/// The links between the calls of a run with these matches.
///
/// # Errors
///
/// `Memory` where there is none left.
pub fn run_links(alloc: Global, ranks: &[RankCalls], matches: &Matches) -> Result<Links, Memory>
    requires run { IsRun ranks.now }
    requires matches { AreMatches ranks.now matches.now }
    ensures same { IfOk result (λ links. LinkTheSame links (links_of ranks.now)) }
    ensures within { IfOk result (AreWithin (lens_of ranks.now)) }
{
    let links = run_edges(alloc, ranks, matches)?;
    with_meets(ranks, matches, links)
}

/// The edges between the calls of a run with these matches, and no meets.
pub(crate) fn run_edges(
    alloc: Global,
    ranks: &[RankCalls],
    matches: &Matches,
) -> Result<Links, Memory>
    requires run { IsRun ranks.now }
    requires matches { AreMatches ranks.now matches.now }
    ensures edges { IfOk result (λ links. links.edges ≡ (links_of ranks.now).edges) }
    ensures meets { IfOk result (λ links. links.meets ≡ []) }
{
    let mut links = Links::new(alloc);
    matches.messages.push_edges(alloc, &mut links)?;
    matches.exposures.push_edges(ranks, &mut links)?;
    matches.rounds.push_edges(ranks, &mut links)?;
    Ok(links)
}

/// These edges of a run, and its meets.
pub(crate) fn with_meets(
    ranks: &[RankCalls],
    matches: &Matches,
    edges: Links,
) -> Result<Links, Memory>
    requires run { IsRun ranks.now }
    requires matches { AreMatches ranks.now matches.now }
    requires edges { edges.edges ≡ (links_of ranks.now).edges }
    requires meets { edges.meets ≡ [] }
    ensures same { IfOk result (λ links. LinkTheSame links (links_of ranks.now)) }
    ensures within { IfOk result (AreWithin (lens_of ranks.now)) }
{
    let mut links = edges;
    matches.rounds.push_meets(ranks, &mut links)?;
    Ok(links)
}
