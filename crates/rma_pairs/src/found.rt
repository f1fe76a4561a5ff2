//! What is found of two accesses.
ghost use Rattle.std.specs.Prelude.{◌≡◌, ◌↔◌, ℕ, List, Some, IfOk, IsTrue};
ghost use Rattle.rma_link.specs.declared.links.Links.{Links};
ghost use Rattle.rma_rules.specs.Access.{IsOnWindowOf};
ghost use Rattle.rma_rules.specs.Before.{AreReached};
ghost use Rattle.rma_finding.specs.declared.finding.FoundRace.{FoundRace};
ghost use Rattle.rma_pairs.specs.Names.{IsBefore};
ghost use Rattle.rma_pairs.specs.Race.{AreCommon};
ghost use Rattle.rma_pairs.specs.Races.{IsFoundBetween, IsFoundOf};

use crate::common::common_bytes;
use crate::names::is_before;
use crate::race::race_by;
use rma_base::{Memory, Site};
use rma_clock::Clocks;
use rma_finding::FoundRace;
use rma_rules::{Access, Rule, Spans};
use rma_window::Windows;
use std::alloc::Global;

/// What is found of two accesses, whichever is the first, if they race.
///
/// # Errors
///
/// `Memory` where there is none left.
pub fn race_between<C: Clocks>(
    alloc: Global,
    a: &Access<'_>,
    b: &Access<'_>,
    lists: &Spans,
    windows: &Windows,
    clocks: &C,
) -> Result<Option<FoundRace>, Memory>
    requires a { IsOnWindowOf windows.now a.now }
    requires b { IsOnWindowOf windows.now b.now }
    requires clocks { (points : List ℕ) × (links : Links) × C.are_of clocks.now points links × AreReached points lists.now a.now b.now × AreReached points lists.now b.now a.now }
    ensures { IfOk result (λ found. (points : List ℕ) (links : Links) (race : FoundRace) → C.are_of clocks.now points links → AreReached points lists.now a.now b.now → AreReached points lists.now b.now a.now
        → (found ≡ Some race) ↔ IsFoundBetween links windows.now lists.now a.now b.now race) }
{
    if is_first(a, b) {
        race_of(alloc, a, b, lists, windows, clocks)
    } else if is_first(b, a) {
        race_of(alloc, b, a, lists, windows, clocks)
    } else {
        Ok(None)
    }
}

/// What is found of two accesses, of which the first has the name that comes first, if they race.
fn race_of<C: Clocks>(
    alloc: Global,
    a: &Access<'_>,
    b: &Access<'_>,
    lists: &Spans,
    windows: &Windows,
    clocks: &C,
) -> Result<Option<FoundRace>, Memory>
    requires in_order { IsBefore a.now.name b.now.name }
    requires a { IsOnWindowOf windows.now a.now }
    requires b { IsOnWindowOf windows.now b.now }
    requires clocks { (points : List ℕ) × (links : Links) × C.are_of clocks.now points links × AreReached points lists.now a.now b.now × AreReached points lists.now b.now a.now }
    ensures { IfOk result (λ found. (points : List ℕ) (links : Links) (race : FoundRace) → C.are_of clocks.now points links → AreReached points lists.now a.now b.now → AreReached points lists.now b.now a.now
        → (found ≡ Some race) ↔ IsFoundOf links windows.now lists.now a.now b.now race) }
{
    match race_by(a, b, lists, windows, clocks) {
        Some(rule) => Ok(Some(found(alloc, a, b, rule)?)),
        None => Ok(None),
    }
}

/// What is found of two accesses that race by a rule.
fn found(alloc: Global, a: &Access<'_>, b: &Access<'_>, rule: Rule) -> Result<FoundRace, Memory>
    ensures names { IfOk result (λ found. (found.first ≡ a.now.name) × (found.second ≡ b.now.name) × (found.memory ≡ a.now.memory) × (found.rule ≡ rule)) }
    ensures sites { IfOk result (λ found. (found.first_site ≡ a.now.site) × (found.second_site ≡ b.now.site)) }
    ensures bytes { IfOk result (λ found. AreCommon a.now b.now found.bytes) }
{
    Ok(FoundRace {
        first: a.name,
        first_site: site_of(a)?,
        second: b.name,
        second_site: site_of(b)?,
        memory: a.memory,
        rule,
        bytes: common_bytes(alloc, a, b)?,
    })
}

/// The site of the call of an access, as one of its own.
fn site_of(access: &Access<'_>) -> Result<Option<Site>, Memory>
    ensures { IfOk result (λ site. site ≡ access.now.site) }
{
    match access.site {
        Some(site) => Ok(Some(site.copy()?)),
        None => Ok(None),
    }
}

/// Whether of two accesses the first has the name that comes first.
fn is_first(a: &Access<'_>, b: &Access<'_>) -> bool
    ensures { IsTrue result ↔ IsBefore a.now.name b.now.name }
{
    is_before(a.name, b.name)
}
