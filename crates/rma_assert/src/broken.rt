//! All assertions of a run that do not hold.
ghost use Rattle.std.specs.Prelude.{◌≡◌, [], All, IfOk, List};
ghost use Rattle.rma_clock.specs.Reached.{points_of};
ghost use Rattle.rma_link.specs.declared.links.Links.{Links};
ghost use Rattle.rma_match.specs.Matches.{AreMatches};
ghost use Rattle.rma_run.specs.Run.{IsRun, lens_of};
ghost use Rattle.rma_window.specs.Creation.{creations};
ghost use Rattle.rma_window.specs.Windows.{windows_by};
ghost use Rattle.rma_accesses.specs.inside.Kept.{AreAccessesOf};
ghost use Rattle.rma_concurrent.specs.Concurrent.{IsLockAskable};
ghost use Rattle.rma_concurrent.specs.inside.Places.{HasMore};
ghost use Rattle.rma_assert.specs.Broken.{AreBroken, IsBroken};

use crate::assertion::BrokenAssertion;
use crate::firsts::firsts;
use crate::locks::add_locks;
use crate::starts::add_starts;
use crate::stores::add_stores;
use crate::updates::add_updates;
use rma_accesses::RunAccesses;
use rma_base::Memory;
use rma_call::RankCalls;
use rma_clock::Clocks;
use rma_match::Matches;
use rma_window::Windows;
use std::alloc::Global;

/// All assertions of a run of good logs that do not hold: of each call for each reason once, by the reason, by the rank and by the line,
/// with the first call that shows it.
///
/// # Errors
///
/// `Memory` where there is none left.
pub fn broken_assertions<C: Clocks>(
    alloc: Global,
    ranks: &[RankCalls],
    matches: &Matches,
    windows: &Windows,
    accesses: &RunAccesses<'_, '_>,
    clocks: &C,
) -> Result<Vec<BrokenAssertion>, Memory>
    requires run { IsRun ranks.now }
    requires matches { AreMatches ranks.now matches.now }
    requires windows { windows.now ≡ windows_by (creations ranks.now) }
    requires accesses { AreAccessesOf ranks.now accesses.now }
    requires locks { All (IsLockAskable (points_of (lens_of ranks.now))) accesses.now.lists.locks }
    requires clocks { (links : Links) × C.are_of clocks.now (points_of (lens_of ranks.now)) links }
    ensures { IfOk result (λ list. (links : Links) → C.are_of clocks.now (points_of (lens_of ranks.now)) links → AreBroken links ranks.now accesses.now.lists list.items) }
{
    let found = gathered(alloc, ranks, matches, windows, accesses, clocks)?;
    firsts(alloc, found)
}

/// All that show one.
fn gathered<C: Clocks>(
    alloc: Global,
    ranks: &[RankCalls],
    matches: &Matches,
    windows: &Windows,
    accesses: &RunAccesses<'_, '_>,
    clocks: &C,
) -> Result<Vec<BrokenAssertion>, Memory>
    requires run { IsRun ranks.now }
    requires matches { AreMatches ranks.now matches.now }
    requires windows { windows.now ≡ windows_by (creations ranks.now) }
    requires accesses { AreAccessesOf ranks.now accesses.now }
    requires locks { All (IsLockAskable (points_of (lens_of ranks.now))) accesses.now.lists.locks }
    requires clocks { (links : Links) × C.are_of clocks.now (points_of (lens_of ranks.now)) links }
    ensures { IfOk result (λ list. (links : Links) → C.are_of clocks.now (points_of (lens_of ranks.now)) links → HasMore (IsBroken links ranks.now accesses.now.lists) [] list.items) }
{
    let mut found = Vec::new(alloc);
    add_starts(&mut found, ranks, &matches.exposures, clocks)?;
    add_stores(&mut found, ranks, &accesses.ranks, &accesses.lists, windows)?;
    add_updates(&mut found, ranks, &accesses.ranks)?;
    add_locks(alloc, &mut found, accesses.lists.locks(), ranks, clocks)?;
    Ok(found)
}
