//! The conflicts between the accesses of a row, and what orders these accesses or keeps them apart.
ghost use Rattle.std.specs.Prelude.{◌≡◌, ◌<◌, ◌∷◌, [], List, All, Contains, length, IfOk, IfSome, OnOk};
ghost use Rattle.rma_call.specs.Call.{RankCalls};
ghost use Rattle.rma_span.specs.Span.{accesses, origin_of, spanned_calls};
ghost use Rattle.rma_match.specs.Matches.{AreMatches};
ghost use Rattle.rma_window.specs.Creation.{creations};
ghost use Rattle.rma_window.specs.Windows.{windows_by};
ghost use Rattle.rma_accesses.specs.Run.{AreGood};
ghost use Rattle.rma_accesses.specs.inside.Kept.{AreAccessesOf, IsAccessesOf, rank_of};
ghost use Rattle.rma_probe.specs.Pairs.{AreClocksOf, MayBeAsked};

use crate::accesses::ROLES;
use crate::text::print_name;
use rma_accesses::{RankAccesses, RunAccesses};
use rma_call::RankCalls;
use rma_clock::{Clocks, SharedClocks};
use rma_happens_before::{RunOrder, order_of};
use rma_match::Matches;
use rma_rules::{Access, Spans, before, forbids, separated};
use rma_table::Failure;
use rma_window::Windows;
use std::alloc::Global;

/// What tells of two accesses of a run whether they conflict, and what orders them.
#[derive(Clone, Copy)]
struct Order<'w, 'l, 'c> {
    /// The windows of the run.
    windows: &'w Windows,
    /// The lists beside its accesses.
    lists: &'l Spans,
    /// The order of its points.
    clocks: &'c SharedClocks,
}

/// Prints the pairs of accesses of a run that conflict, or that no program can have made it.
pub fn print_matched(
    rt: HostRuntime,
    calls: &[RankCalls],
    matches: &Matches,
    windows: &Windows,
    run: &RunAccesses<'_, '_>,
) -> Result<(), Failure>
    requires good { AreGood calls.now }
    requires matches { AreMatches calls.now matches.now }
    requires windows { windows.now ≡ windows_by (creations calls.now) }
    requires accesses { AreAccessesOf calls.now run.now }
{
    match order_of(rt.alloc(), calls, matches)? {
        RunOrder::Possible(order) => print_accessed(rt, windows, &order.clocks, run),
        RunOrder::Impossible(_) => Ok(println!(rt; "= impossible")?),
    }
}

/// Prints those of a run with these windows, clocks and accesses.
fn print_accessed(
    rt: HostRuntime,
    windows: &Windows,
    clocks: &SharedClocks,
    run: &RunAccesses<'_, '_>,
) -> Result<(), Failure>
    requires { (ranks : List RankCalls) × AreGood ranks × AreAccessesOf ranks run.now × (windows.now ≡ windows_by (creations ranks)) × AreClocksOf ⟦<SharedClocks as Clocks>⟧.are_of ranks clocks.now }
{
    let all = all_accesses(rt.alloc(), run)?;
    let order = Order {
        windows,
        lists: &run.lists,
        clocks,
    };
    print_pairs(rt, order, all.as_slice())
}

/// The accesses of a run, by rank, line and role.
fn all_accesses<'a>(alloc: Global, run: &'a RunAccesses<'_, '_>) -> Result<Vec<Access<'a>>, Failure>
    requires { (ranks : List RankCalls) × AreAccessesOf ranks run.now }
    ensures { IfOk result (λ all. (ranks : List RankCalls) → AreAccessesOf ranks run.now → All (Contains (accesses ranks)) all.items) }
{
    let mut all = Vec::new(alloc);
    for own in run.ranks.as_slice() {
        add_rank(own, &mut all)?;
    }
    Ok(all)
}

/// Adds those of a rank.
fn add_rank<'a>(own: &'a RankAccesses<'_, '_>, all: &mut Vec<Access<'a>>) -> Result<(), Failure>
    requires { (ranks : List RankCalls) × IsAccessesOf ranks own.now }
    ensures { OnOk result ((ranks : List RankCalls) → IsAccessesOf ranks own.now → Contains ranks (rank_of own.now) → All (Contains (accesses ranks)) all.old.items → All (Contains (accesses ranks)) all.new.items) }
{
    for index in 0..own.len() {
        add_call(own, index, all)?;
    }
    Ok(())
}

/// Adds those of the call at an index among those that access memory.
fn add_call<'a>(
    own: &'a RankAccesses<'_, '_>,
    index: usize,
    all: &mut Vec<Access<'a>>,
) -> Result<(), Failure>
    requires { (ranks : List RankCalls) × IsAccessesOf ranks own.now × index < length (spanned_calls (origin_of ranks own.now.own.now)) }
    ensures { OnOk result ((ranks : List RankCalls) → IsAccessesOf ranks own.now → Contains ranks (rank_of own.now) → All (Contains (accesses ranks)) all.old.items → All (Contains (accesses ranks)) all.new.items) }
{
    for role in ROLES {
        push_some(all, own.access(index, role))?;
    }
    Ok(())
}

/// Adds an access, if there is one.
fn push_some<'a>(all: &mut Vec<Access<'a>>, access: Option<Access<'a>>) -> Result<(), Failure>
    ensures { OnOk result ((ranks : List RankCalls) → IfSome access.entry (Contains (accesses ranks)) → All (Contains (accesses ranks)) all.old.items → All (Contains (accesses ranks)) all.new.items) }
{
    if let Some(access) = access {
        all.push(access)?;
    }
    Ok(())
}

/// Prints the pairs of these accesses that conflict.
fn print_pairs(rt: HostRuntime, order: Order<'_, '_, '_>, all: &[Access<'_>]) -> Result<(), Failure>
    requires { MayBeAsked ⟦<SharedClocks as Clocks>⟧.are_of order all.now }
{
    for i in 0..all.len() {
        print_with(rt, order, all, i)?;
    }
    Ok(())
}

/// Prints the pairs of the access at a place with one behind it that conflict.
fn print_with(
    rt: HostRuntime,
    order: Order<'_, '_, '_>,
    all: &[Access<'_>],
    place: usize,
) -> Result<(), Failure>
    requires asked { MayBeAsked ⟦<SharedClocks as Clocks>⟧.are_of order all.now }
    requires place { place < length all.now }
{
    for other in place + 1..all.len() {
        print_pair(rt, order, &all[place], &all[other])?;
    }
    Ok(())
}

/// Prints two accesses, where they conflict.
fn print_pair(
    rt: HostRuntime,
    order: Order<'_, '_, '_>,
    a: &Access<'_>,
    b: &Access<'_>,
) -> Result<(), Failure>
    requires { MayBeAsked ⟦<SharedClocks as Clocks>⟧.are_of order (a.now ∷ b.now ∷ []) }
{
    let Some(rule) = forbids(a, b, order.windows) else {
        return Ok(());
    };
    print!(rt; "= ")?;
    print_name(rt, a)?;
    print!(rt; " ")?;
    print_name(rt, b)?;
    println!(rt; " {} {}", rule.word(), word(order, a, b))?;
    Ok(())
}

/// The word for what keeps two accesses apart: locks, or the order in which they are made; or that nothing does.
fn word(order: Order<'_, '_, '_>, a: &Access<'_>, b: &Access<'_>) -> &'static str
    requires { MayBeAsked ⟦<SharedClocks as Clocks>⟧.are_of order (a.now ∷ b.now ∷ []) }
{
    if separated(a, b) {
        "separated"
    } else if before(a, b, order.lists, order.windows, order.clocks) {
        "before"
    } else if before(b, a, order.lists, order.windows, order.clocks) {
        "after"
    } else {
        "concurrent"
    }
}
