//! The order of faults.
ghost use Rattle.std.specs.Prelude.{◌≡◌, ◌≢◌, ◌-◌, ◌++◌, ◌∷◌, [], false, length, slice_get, Contains, IfOk, OnOk, Some, List};
ghost use Rattle.std.specs.Bool.{MatchBool};
ghost use Rattle.std.specs.Ordering.{is_lt, nat_cmp};
ghost use Rattle.std.specs.Cmp.Lexicographic.{slice_cmp};
ghost use Rattle.std.specs.List.Sorted.{IsPermutation, IsSorted};
ghost use Rattle.rma_concurrent.specs.inside.Places.{IsInOrder};
ghost use Rattle.rma_dyn.specs.declared.fault.RegionFault.{RegionFault};
ghost use Rattle.rma_dyn.specs.Fault.{fault_order, other_key};

use crate::fault::RegionFault;
use rma_base::{LineNo, Memory, Rank};
use std::alloc::Global;
use std::cmp::Ordering;

/// Which of two faults comes first.
#[tactic(auto, unfolding(crate::specs::Fault::fault_order))]
fn compare(own: &RegionFault, other: &RegionFault) -> Ordering
    ensures { result ≡ fault_order own.now other.now }
{
    let key = (own.reason.place(), own.rank.0, own.line.0);
    let other_key = (other.reason.place(), other.rank.0, other.line.0);
    key.cmp(&other_key)
        .then_with(|| compare_others(own.other, other.other))
}

/// Which of two other calls comes first: none does before any.
fn compare_others(own: Option<(Rank, LineNo)>, other: Option<(Rank, LineNo)>) -> Ordering
    ensures { result ≡ slice_cmp nat_cmp (other_key own) (other_key other) }
{
    match (own, other) {
        (None, None) => Ordering::Equal,
        (None, Some(_)) => Ordering::Less,
        (Some(_), None) => Ordering::Greater,
        (Some(own), Some(other)) => (own.0.0, own.1.0).cmp(&(other.0.0, other.1.0)),
    }
}

/// Some faults in their order, each once.
///
/// # Errors
///
/// `Memory` where there is none left.
pub(crate) fn in_order(
    alloc: Global,
    mut found: Vec<RegionFault>,
) -> Result<Vec<RegionFault>, Memory>
    ensures { IfOk result (λ list. IsInOrder fault_order found.items list.items) }
{
    sort(&mut found);
    each_once(alloc, found.as_slice())
}

/// Sorts some faults.
fn sort(found: &mut Vec<RegionFault>)
    ensures permutation { IsPermutation found.old.items found.new.items }
    ensures sorted { IsSorted fault_order found.new.items }
{
    found.sort_unstable_by(|a, b| compare(a, b));
}

/// Sorted faults, without those that stand behind an equal one.
fn each_once(alloc: Global, sorted: &[RegionFault]) -> Result<Vec<RegionFault>, Memory>
    requires { IsSorted fault_order sorted.now }
    ensures { IfOk result (λ list. IsInOrder fault_order sorted.now list.items) }
{
    let mut out = Vec::new(alloc);
    for fault in sorted {
        add_new(&mut out, *fault)?;
    }
    Ok(out)
}

/// Adds a fault, unless the last one is equal to it.
fn add_new(out: &mut Vec<RegionFault>, fault: RegionFault) -> Result<(), Memory>
    ensures { OnOk result ((seen : List RegionFault) → IsInOrder fault_order seen out.old.items → ((x : RegionFault) → Contains seen x → is_lt (fault_order fault x) ≡ false) → IsInOrder fault_order (seen ++ fault ∷ []) out.new.items) }
{
    if is_new(out.as_slice(), &fault) {
        out.push(fault)?;
    }
    Ok(())
}

/// Whether the last of some faults is another one than this.
#[tactic(auto, using(crate::proofs::OrderLemmas::fault_ties))]
fn is_new(out: &[RegionFault], fault: &RegionFault) -> bool
    ensures { MatchBool result ((x : RegionFault) → slice_get out.now (length out.now - 1) ≡ Some x → fault_order x fault.now ≢ Ordering.Equal) (Contains out.now fault.now) }
{
    match out.last() {
        Some(last) => compare(last, fault) != Ordering::Equal,
        None => true,
    }
}
