//! All epochs of a run that MPI does not allow at once.
ghost use Rattle.std.specs.Prelude.{ℕ, List, IfOk};
ghost use Rattle.std.specs.List.Sorted.{IsPermutation};
ghost use Rattle.rma_link.specs.declared.links.Links.{Links};
ghost use Rattle.rma_concurrent.specs.Concurrent.{AreAskable, AreDoubled, AreExposed, AreOnWindows};
ghost use Rattle.rma_concurrent.specs.inside.Places.{Rise};

use crate::doubled::add_posts;
use crate::exposed::add_locks;
use crate::exposures::by_target;
use crate::order::in_order;
use rma_base::Memory;
use rma_clock::Clocks;
use rma_finding::{DoubledPost, ExposedLock};
use rma_rules::{Exposure, Spans};
use rma_window::Windows;
use std::alloc::Global;

/// The epochs of a run that MPI does not allow at once.
#[derive(Debug, Drop)]
pub struct ConcurrentEpochs {
    /// The lock epochs that may be open while their target is exposed, by rank, by line, by target, by the line that opens the exposure,
    /// and by the window's name.
    pub exposed: Vec<ExposedLock>,
    /// The posts between two fences that expose the same window, by target, by line, by the line of the fence, and by
    /// the window's name.
    pub doubled: Vec<DoubledPost>,
}

/// All epochs of a run that MPI does not allow at once: each lock epoch with each exposure of its target that may be open while it is,
/// and each post with each exposure between whose fences it stands.
///
/// The exposures are sorted once. A lock epoch then asks the clocks a logarithm of the exposures of its target, and a few times for each
/// that is reported; a lockall does so for each target of its window that is exposed; and a post asks no clocks.
///
/// # Errors
///
/// `Memory` where there is none left.
pub fn concurrent_epochs<C: Clocks>(
    alloc: Global,
    lists: &Spans,
    windows: &Windows,
    clocks: &C,
) -> Result<ConcurrentEpochs, Memory>
    requires windows { AreOnWindows windows.now lists.now }
    requires clocks { (points : List ℕ) × (links : Links) × C.are_of clocks.now points links × AreAskable points lists.now }
    ensures exposed { IfOk result (λ epochs. (points : List ℕ) (links : Links) → C.are_of clocks.now points links → AreAskable points lists.now → AreExposed links windows.now lists.now epochs.exposed.items) }
    ensures doubled { IfOk result (λ epochs. AreDoubled windows.now lists.now epochs.doubled.items) }
{
    let exposures = by_target(alloc, lists.exposures())?;
    let list = exposures.as_slice();
    let exposed = exposed_locks(alloc, lists, list, windows, clocks)?;
    let doubled = doubled_posts(alloc, lists, list, windows)?;
    Ok(ConcurrentEpochs { exposed, doubled })
}

/// The lock epochs that may be open while their target is exposed, by the exposures in their order.
fn exposed_locks<C: Clocks>(
    alloc: Global,
    lists: &Spans,
    exposures: &[Exposure],
    windows: &Windows,
    clocks: &C,
) -> Result<Vec<ExposedLock>, Memory>
    requires windows { AreOnWindows windows.now lists.now }
    requires clocks { (points : List ℕ) × (links : Links) × C.are_of clocks.now points links × AreAskable points lists.now }
    requires permutation { IsPermutation lists.now.exposures exposures.now }
    requires rise { Rise exposures.now }
    ensures { IfOk result (λ list. (points : List ℕ) (links : Links) → C.are_of clocks.now points links → AreAskable points lists.now → AreExposed links windows.now lists.now list.items) }
{
    let mut found = Vec::new(alloc);
    add_locks(&mut found, lists.locks(), exposures, windows, clocks)?;
    in_order(alloc, found)
}

/// The posts between two fences of an exposure, by the exposures in their order.
fn doubled_posts(
    alloc: Global,
    lists: &Spans,
    exposures: &[Exposure],
    windows: &Windows,
) -> Result<Vec<DoubledPost>, Memory>
    requires windows { AreOnWindows windows.now lists.now }
    requires permutation { IsPermutation lists.now.exposures exposures.now }
    requires rise { Rise exposures.now }
    ensures { IfOk result (λ list. AreDoubled windows.now lists.now list.items) }
{
    let mut found = Vec::new(alloc);
    add_posts(&mut found, lists.posts(), exposures, windows)?;
    in_order(alloc, found)
}
