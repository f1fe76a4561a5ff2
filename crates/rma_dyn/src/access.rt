//! The fault of an access.
ghost use Rattle.std.specs.Prelude.{◌≡◌, ◌<◌, ◌↔◌, List, Contains, Some, length};
ghost use Rattle.rma_clock.specs.Reached.{points_of};
ghost use Rattle.rma_link.specs.declared.links.Links.{Links};
ghost use Rattle.rma_run.specs.Run.{IsRun, calls_of, lens_of};
ghost use Rattle.rma_span.specs.Span.{accesses};
ghost use Rattle.rma_window.specs.Windows.{Window};
ghost use Rattle.rma_dyn.specs.Fault.{IsAtAccess};
ghost use Rattle.rma_dyn.specs.inside.Run.{AreKnown, fault_by};
ghost use Rattle.rma_dyn.specs.Region.{IsThroughDynamic};
ghost use Rattle.rma_dyn.specs.declared.fault.RegionFault.{RegionFault};

use crate::change::Change;
use crate::fault::RegionFault;
use crate::reached::{Ends, entered_before_done, left_before};
use crate::reason::RegionReason;
use crate::search::{Cover, cover_of};
use rma_base::Rank;
use rma_call::RankCalls;
use rma_clock::Clocks;
use rma_rules::{Access, AccessName, Owner};
use rma_window::Windows;

/// The fault of an access of a run, if it has one: its attaches and detaches are all those of the run in their order, with the addresses
/// up to which they reach.
pub(crate) fn fault_of<C: Clocks>(
    access: &Access<'_>,
    ranks: &[RankCalls],
    windows: &Windows,
    list: &[Change],
    reaches: &[u64],
    clocks: &C,
    ends: &mut [Ends],
) -> Option<RegionFault>
    requires known { AreKnown ranks.now windows.now list.now reaches.now }
    requires access { Contains (accesses ranks.now) access.now }
    requires clocks { (links : Links) × C.are_of clocks.now (points_of (lens_of ranks.now)) links }
    ensures { (links : Links) → C.are_of clocks.now (points_of (lens_of ranks.now)) links → (fault : RegionFault) → (result ≡ Some fault) ↔ IsAtAccess links windows.now list.now access.now fault }
{
    match access.window {
        Some(window) => {
            if windows.is_dynamic(window) {
                let owner = Owner {
                    rank: access.memory,
                    window,
                };
                fault_through(access, owner, ranks, list, reaches, clocks, ends)
            } else {
                None
            }
        }
        None => None,
    }
}

/// The same through a dynamic window, of the memory of a rank.
fn fault_through<C: Clocks>(
    access: &Access<'_>,
    owner: Owner,
    ranks: &[RankCalls],
    list: &[Change],
    reaches: &[u64],
    clocks: &C,
    ends: &mut [Ends],
) -> Option<RegionFault>
    requires known { (windows : List Window) × AreKnown ranks.now windows list.now reaches.now }
    requires access { Contains (accesses ranks.now) access.now }
    requires window { access.now.window ≡ Some owner.window }
    requires memory { access.now.memory ≡ owner.rank }
    requires clocks { (links : Links) × C.are_of clocks.now (points_of (lens_of ranks.now)) links }
    ensures { (links : Links) (windows : List Window) → C.are_of clocks.now (points_of (lens_of ranks.now)) links → IsThroughDynamic windows access.now → (fault : RegionFault) → (result ≡ Some fault) ↔ IsAtAccess links windows list.now access.now fault }
{
    let count = count_of(ranks, owner.rank);
    let hint = ends_of(ends, owner.rank);
    let bound = left_before(access, owner.rank, count, hint.left, clocks);
    let freed = entered_before_done(access, owner.rank, count, hint.entered, clocks);
    keep(ends, owner.rank, bound, freed);
    let cover = cover_of(list, reaches, access, owner, bound, freed);
    fault_by(access.name, cover)
}

/// How many calls a rank makes.
fn count_of(ranks: &[RankCalls], rank: Rank) -> u32
    requires run { IsRun ranks.now }
    requires there { rank.0 < length ranks.now }
    ensures { result ≡ length (calls_of ranks.now rank.0) }
{
    ranks[rank.0 as usize].calls().len() as u32
}

/// Where the searches for the last access to the memory of a rank ended.
fn ends_of(ends: &[Ends], memory: Rank) -> Ends {
    match ends.get(memory.0 as usize) {
        Some(ends) => *ends,
        None => Ends {
            left: 0,
            entered: 0,
        },
    }
}

/// Keeps where the searches ended.
fn keep(ends: &mut [Ends], memory: Rank, left: u32, entered: u32) {
    if let Some(own) = ends.get_mut(memory.0 as usize) {
        *own = Ends { left, entered };
    }
}

/// The fault that an access of a name has by the attaches that hold it.
fn fault_by(name: AccessName, cover: Cover) -> Option<RegionFault>
    ensures { result ≡ fault_by name cover }
{
    let (reason, other) = match cover {
        Cover::Kept => return None,
        Cover::Nothing => (RegionReason::Unattached, None),
        Cover::Gone(_, detach) => (
            RegionReason::DetachUnordered,
            Some((detach.rank, detach.line)),
        ),
    };
    Some(RegionFault {
        reason,
        rank: name.rank,
        line: name.line,
        other,
    })
}
