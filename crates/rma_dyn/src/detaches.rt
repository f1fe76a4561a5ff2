//! The detaches of a run that have no region to end.
ghost use Rattle.std.specs.Prelude.{◌≡◌, ◌<◌, ◌^◌, ◌↔◌, All, OnOk, Contains, None, Some};
ghost use Rattle.rma_concurrent.specs.inside.Places.{HasMore, IsOf};
ghost use Rattle.rma_dyn.specs.declared.fault.RegionFault.{RegionFault};
ghost use Rattle.rma_dyn.specs.Fault.{IsUnknown};
ghost use Rattle.rma_dyn.specs.inside.Sorted.{AreOnce, Rise};

use crate::change::Change;
use crate::fault::RegionFault;
use crate::live::is_known;
use crate::reason::RegionReason;
use rma_base::Memory;

/// Adds those of attaches and detaches in their order.
///
/// # Errors
///
/// `Memory` where there is none left.
pub(crate) fn add_detaches(found: &mut Vec<RegionFault>, list: &[Change]) -> Result<(), Memory>
    requires rise { Rise list.now }
    requires once { AreOnce list.now }
    requires small { All (λ c. c.call < 2 ^ 31) list.now }
    ensures { OnOk result (HasMore (IsOf (IsUnknown list.now) list.now) found.old.items found.new.items) }
{
    for own in list {
        add_detach(found, list, own)?;
    }
    Ok(())
}

/// Adds that of an attach or detach, if it has one.
fn add_detach(found: &mut Vec<RegionFault>, list: &[Change], own: &Change) -> Result<(), Memory>
    requires rise { Rise list.now }
    requires once { AreOnce list.now }
    requires small { All (λ c. c.call < 2 ^ 31) list.now }
    requires there { Contains list.now own.now }
    ensures { OnOk result (HasMore (IsUnknown list.now own.now) found.old.items found.new.items) }
{
    if let Some(fault) = fault_of(list, own) {
        found.push(fault)?;
    }
    Ok(())
}

/// The fault of an attach or detach, if it is a detach that has no region to end.
fn fault_of(list: &[Change], own: &Change) -> Option<RegionFault>
    requires rise { Rise list.now }
    requires once { AreOnce list.now }
    requires small { All (λ c. c.call < 2 ^ 31) list.now }
    requires there { Contains list.now own.now }
    ensures { (fault : RegionFault) → (result ≡ Some fault) ↔ IsUnknown list.now own.now fault }
{
    match own.size {
        Some(_) => None,
        None => fault_of_detach(list, own),
    }
}

/// The fault of a detach, if it has no region to end.
fn fault_of_detach(list: &[Change], own: &Change) -> Option<RegionFault>
    requires rise { Rise list.now }
    requires once { AreOnce list.now }
    requires small { All (λ c. c.call < 2 ^ 31) list.now }
    requires there { Contains list.now own.now }
    requires detaches { own.now.size ≡ None }
    ensures { (fault : RegionFault) → (result ≡ Some fault) ↔ IsUnknown list.now own.now fault }
{
    if is_known(list, own) {
        return None;
    }
    Some(RegionFault {
        reason: RegionReason::DetachUnknown,
        rank: own.rank,
        line: own.line,
        other: None,
    })
}
