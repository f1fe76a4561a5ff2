//! The exposures of a run between fences.
ghost use Rattle.std.specs.Prelude.{◌≡◌, List, map, IfOk, OnOk};
ghost use Rattle.rma_call.specs.Call.{RankCalls};
ghost use Rattle.rma_match.specs.Matches.{AreMatches};
ghost use Rattle.rma_fenced.specs.Fenced.{HasSame, accessed_in};
ghost use Rattle.rma_accesses.specs.Run.{AreEpochsOf, AreListsOf, own_of};
ghost use Rattle.rma_accesses.specs.inside.Listing.{ArePosted, with_fences};

use crate::epochs::RunEpochs;
use rma_base::Memory;
use rma_call::RankCalls;
use rma_fenced::{AccessedPhases, list_fenced};
use rma_match::Matches;
use rma_rules::Spans;
use std::alloc::Global;

/// Adds the exposures between fences of a run with these matches and epochs to its other lists.
///
/// # Errors
///
/// `Memory` where there is none left.
pub(crate) fn add_fenced(
    alloc: Global,
    lists: &mut Spans,
    ranks: &[RankCalls],
    matches: &Matches,
    epochs: &RunEpochs<'_>,
) -> Result<(), Memory>
    requires matches { AreMatches ranks.now matches.now }
    requires epochs { AreEpochsOf ranks.now epochs.now }
    ensures { OnOk result (ArePosted ranks.now lists.old → AreListsOf ranks.now lists.new) }
{
    let phases = phases_of(alloc, ranks, matches, epochs)?;
    list_ranks(alloc, lists, &phases, epochs)
}

/// The phases in which the accesses of a run stand.
fn phases_of(
    alloc: Global,
    ranks: &[RankCalls],
    matches: &Matches,
    epochs: &RunEpochs<'_>,
) -> Result<AccessedPhases, Memory>
    requires matches { AreMatches ranks.now matches.now }
    requires epochs { AreEpochsOf ranks.now epochs.now }
    ensures { IfOk result (λ phases. HasSame phases (accessed_in ranks.now)) }
{
    let mut phases = AccessedPhases::new(alloc);
    for own in epochs.ranks.as_slice() {
        phases.add(ranks, matches, own.own.rank(), own.calls, &own.table)?;
    }
    Ok(phases)
}

/// Adds the exposures between the fences of each rank, where accesses stand in these phases.
fn list_ranks(
    alloc: Global,
    lists: &mut Spans,
    phases: &AccessedPhases,
    epochs: &RunEpochs<'_>,
) -> Result<(), Memory>
    requires { (ranks : List RankCalls) × AreEpochsOf ranks epochs.now }
    ensures { OnOk result (lists.new ≡ with_fences lists.old phases.now epochs.now.windows (map own_of epochs.now.ranks.items)) }
{
    for own in epochs.ranks.as_slice() {
        list_fenced(alloc, lists, phases, own.own.rank(), own.calls, &own.table)?;
    }
    Ok(())
}
