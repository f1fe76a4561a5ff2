//! The faults of the accesses of a run.
ghost use Rattle.std.specs.Prelude.{◌≡◌, [], Contains, IfOk, IfSome, OnOk};
ghost use Rattle.rma_clock.specs.Reached.{points_of};
ghost use Rattle.rma_link.specs.declared.links.Links.{Links};
ghost use Rattle.rma_run.specs.Run.{lens_of};
ghost use Rattle.rma_span.specs.Span.{accesses};
ghost use Rattle.rma_window.specs.Creation.{creations};
ghost use Rattle.rma_window.specs.Windows.{windows_by};
ghost use Rattle.rma_accesses.specs.Run.{AreGood};
ghost use Rattle.rma_accesses.specs.inside.Kept.{AreAccessesOf, IsAccessesOf, rank_of};
ghost use Rattle.rma_concurrent.specs.inside.Places.{HasMore, IsOf};
ghost use Rattle.rma_dyn.specs.Fault.{IsAtAccess};
ghost use Rattle.rma_dyn.specs.inside.Run.{IsAtOption, IsOfRank, knows};

use crate::access::fault_of;
use crate::change::Change;
use crate::changes::changes_of;
use crate::fault::RegionFault;
use crate::reached::Ends;
use crate::sorted::{reaches_of, sort};
use rma_accesses::{RankAccesses, RunAccesses};
use rma_base::Memory;
use rma_call::RankCalls;
use rma_clock::Clocks;
use rma_rules::{Access, Role};
use rma_window::Windows;
use std::alloc::Global;

/// The attaches and detaches of a run in their order, and the addresses up to which they reach.
#[derive(Drop)]
pub(crate) struct Known {
    /// The attaches and detaches.
    pub(crate) list: Vec<Change>,
    /// The addresses.
    pub(crate) reaches: Vec<u64>,
}

/// What is known of the attaches and detaches of a run.
///
/// # Errors
///
/// `Memory` where there is none left.
pub(crate) fn known_of(
    alloc: Global,
    ranks: &[RankCalls],
    windows: &Windows,
) -> Result<Known, Memory>
    requires good { AreGood ranks.now }
    requires windows { windows.now ≡ windows_by (creations ranks.now) }
    ensures { IfOk result (knows ranks.now windows.now) }
{
    let mut list = changes_of(alloc, ranks, windows)?;
    sort(&mut list);
    let reaches = reaches_of(alloc, list.as_slice())?;
    Ok(Known { list, reaches })
}

/// The faults, in any order.
///
/// # Errors
///
/// `Memory` where there is none left.
pub(crate) fn found_in<C: Clocks>(
    alloc: Global,
    ranks: &[RankCalls],
    run: &RunAccesses<'_, '_>,
    windows: &Windows,
    known: &Known,
    clocks: &C,
) -> Result<Vec<RegionFault>, Memory>
    requires known { knows ranks.now windows.now known.now }
    requires accesses { AreAccessesOf ranks.now run.now }
    requires clocks { (links : Links) × C.are_of clocks.now (points_of (lens_of ranks.now)) links }
    ensures { IfOk result (λ list. (links : Links) → C.are_of clocks.now (points_of (lens_of ranks.now)) links → HasMore (IsOf (IsOfRank links windows.now known.now.list.items ranks.now) ranks.now) [] list.items) }
{
    let mut found = Vec::new(alloc);
    let mut ends = new_ends(alloc, ranks.len())?;
    for own in run.ranks.as_slice() {
        add_rank(&mut found, own, ranks, windows, known, clocks, &mut ends)?;
    }
    Ok(found)
}

/// Where searches begin before the first one ended, for the memory of each of so many ranks.
fn new_ends(alloc: Global, ranks: usize) -> Result<Vec<Ends>, Memory> {
    let none = Ends {
        left: 0,
        entered: 0,
    };
    Ok(vec![in alloc; none; ranks]?)
}

/// Adds those of one rank.
fn add_rank<C: Clocks>(
    found: &mut Vec<RegionFault>,
    own: &RankAccesses<'_, '_>,
    ranks: &[RankCalls],
    windows: &Windows,
    known: &Known,
    clocks: &C,
    ends: &mut [Ends],
) -> Result<(), Memory>
    requires known { knows ranks.now windows.now known.now }
    requires accesses { IsAccessesOf ranks.now own.now }
    requires there { Contains ranks.now (rank_of own.now) }
    requires clocks { (links : Links) × C.are_of clocks.now (points_of (lens_of ranks.now)) links }
    ensures { OnOk result ((links : Links) → C.are_of clocks.now (points_of (lens_of ranks.now)) links → HasMore (IsOfRank links windows.now known.now.list.items ranks.now (rank_of own.now)) found.old.items found.new.items) }
{
    for index in 0..own.len() {
        add_some(
            found,
            own.access(index, Role::Target),
            ranks,
            windows,
            known,
            clocks,
            ends,
        )?;
    }
    Ok(())
}

/// Adds that of an access, if there is one.
fn add_some<C: Clocks>(
    found: &mut Vec<RegionFault>,
    access: Option<Access<'_>>,
    ranks: &[RankCalls],
    windows: &Windows,
    known: &Known,
    clocks: &C,
    ends: &mut [Ends],
) -> Result<(), Memory>
    requires known { knows ranks.now windows.now known.now }
    requires access { IfSome access (Contains (accesses ranks.now)) }
    requires clocks { (links : Links) × C.are_of clocks.now (points_of (lens_of ranks.now)) links }
    ensures { OnOk result ((links : Links) → C.are_of clocks.now (points_of (lens_of ranks.now)) links → HasMore (IsAtOption links windows.now known.now.list.items access.entry) found.old.items found.new.items) }
{
    match access {
        Some(access) => add_access(found, &access, ranks, windows, known, clocks, ends),
        None => Ok(()),
    }
}

/// Adds that of an access, if it has one.
fn add_access<C: Clocks>(
    found: &mut Vec<RegionFault>,
    access: &Access<'_>,
    ranks: &[RankCalls],
    windows: &Windows,
    known: &Known,
    clocks: &C,
    ends: &mut [Ends],
) -> Result<(), Memory>
    requires known { knows ranks.now windows.now known.now }
    requires access { Contains (accesses ranks.now) access.now }
    requires clocks { (links : Links) × C.are_of clocks.now (points_of (lens_of ranks.now)) links }
    ensures { OnOk result ((links : Links) → C.are_of clocks.now (points_of (lens_of ranks.now)) links → HasMore (IsAtAccess links windows.now known.now.list.items access.now) found.old.items found.new.items) }
{
    let list = known.list.as_slice();
    let reaches = known.reaches.as_slice();
    if let Some(fault) = fault_of(access, ranks, windows, list, reaches, clocks, ends) {
        found.push(fault)?;
    }
    Ok(())
}
