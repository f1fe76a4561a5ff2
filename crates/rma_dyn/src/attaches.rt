//! The attaches of a run that meet a region that is live then.
ghost use Rattle.std.specs.Prelude.{◌≡◌, ◌↔◌, OnOk, Contains, Some};
ghost use Rattle.rma_concurrent.specs.inside.Places.{HasMore, IsOf};
ghost use Rattle.rma_dyn.specs.declared.fault.RegionFault.{RegionFault};
ghost use Rattle.rma_dyn.specs.Fault.{IsOverlap};
ghost use Rattle.rma_dyn.specs.inside.Overlap.{AreAsked, overlap_by};

use crate::change::Change;
use crate::fault::RegionFault;
use crate::overlap::first_overlap;
use crate::reason::RegionReason;
use rma_base::Memory;

/// Adds those of attaches and detaches in their order.
///
/// # Errors
///
/// `Memory` where there is none left.
pub(crate) fn add_attaches(
    found: &mut Vec<RegionFault>,
    list: &[Change],
    reaches: &[u64],
    lasts: &[u32],
) -> Result<(), Memory>
    requires { AreAsked list.now reaches.now lasts.now }
    ensures { OnOk result (HasMore (IsOf (IsOverlap list.now) list.now) found.old.items found.new.items) }
{
    for own in list {
        add_attach(found, list, reaches, lasts, own)?;
    }
    Ok(())
}

/// Adds that of an attach or detach, if it has one.
fn add_attach(
    found: &mut Vec<RegionFault>,
    list: &[Change],
    reaches: &[u64],
    lasts: &[u32],
    own: &Change,
) -> Result<(), Memory>
    requires asked { AreAsked list.now reaches.now lasts.now }
    requires there { Contains list.now own.now }
    ensures { OnOk result (HasMore (IsOverlap list.now own.now) found.old.items found.new.items) }
{
    if let Some(fault) = fault_of(list, reaches, lasts, own) {
        found.push(fault)?;
    }
    Ok(())
}

/// The fault of an attach or detach, if it is an attach that meets a region.
fn fault_of(list: &[Change], reaches: &[u64], lasts: &[u32], own: &Change) -> Option<RegionFault>
    requires asked { AreAsked list.now reaches.now lasts.now }
    requires there { Contains list.now own.now }
    ensures { (fault : RegionFault) → (result ≡ Some fault) ↔ IsOverlap list.now own.now fault }
{
    match own.size {
        Some(size) => fault_by(own, first_overlap(list, reaches, lasts, own, size)),
        None => None,
    }
}

/// The fault of an attach that meets this region first, if it meets any.
fn fault_by(own: &Change, first: Option<Change>) -> Option<RegionFault>
    ensures { result ≡ overlap_by own.now first }
{
    match first {
        Some(first) => Some(RegionFault {
            reason: RegionReason::AttachOverlap,
            rank: own.rank,
            line: own.line,
            other: Some((first.rank, first.line)),
        }),
        None => None,
    }
}
