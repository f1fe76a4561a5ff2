//! Whether two accesses race.
ghost use Rattle.std.specs.Prelude.{◌≡◌, ◌↔◌, ℕ, List, Some, IsTrue};
ghost use Rattle.rma_link.specs.declared.links.Links.{Links};
ghost use Rattle.rma_rules.specs.Access.{IsOnWindowOf};
ghost use Rattle.rma_rules.specs.Before.{AreReached, Before};
ghost use Rattle.rma_rules.specs.Lock.{Separated};
ghost use Rattle.rma_rules.specs.declared.rule.Rule.{Rule};
ghost use Rattle.rma_pairs.specs.Race.{Race};

use rma_clock::Clocks;
use rma_rules::{Access, Rule, Spans, before, forbids, separated};
use rma_window::Windows;

/// The rule by which two accesses race, if they do. It takes no memory; the clocks are asked only where the two conflict and no locks
/// keep them apart.
pub fn race_by<C: Clocks>(
    a: &Access<'_>,
    b: &Access<'_>,
    lists: &Spans,
    windows: &Windows,
    clocks: &C,
) -> Option<Rule>
    requires a { IsOnWindowOf windows.now a.now }
    requires b { IsOnWindowOf windows.now b.now }
    requires clocks { (points : List ℕ) × (links : Links) × C.are_of clocks.now points links × AreReached points lists.now a.now b.now × AreReached points lists.now b.now a.now }
    ensures { (points : List ℕ) (links : Links) (rule : Rule) → C.are_of clocks.now points links → AreReached points lists.now a.now b.now → AreReached points lists.now b.now a.now
        → (result ≡ Some rule) ↔ Race links windows.now lists.now a.now b.now rule }
{
    let rule = forbids(a, b, windows)?;
    if are_together(a, b, lists, windows, clocks) {
        Some(rule)
    } else {
        None
    }
}

/// Whether neither locks nor the order keep two accesses apart.
fn are_together<C: Clocks>(
    a: &Access<'_>,
    b: &Access<'_>,
    lists: &Spans,
    windows: &Windows,
    clocks: &C,
) -> bool
    requires a { IsOnWindowOf windows.now a.now }
    requires b { IsOnWindowOf windows.now b.now }
    requires clocks { (points : List ℕ) × (links : Links) × C.are_of clocks.now points links × AreReached points lists.now a.now b.now × AreReached points lists.now b.now a.now }
    ensures { (points : List ℕ) (links : Links) → C.are_of clocks.now points links → AreReached points lists.now a.now b.now → AreReached points lists.now b.now a.now
        → IsTrue result ↔ ((¬ Separated a.now b.now) × (¬ Before links windows.now lists.now a.now b.now) × (¬ Before links windows.now lists.now b.now a.now)) }
{
    if separated(a, b) {
        return false;
    }
    if before(a, b, lists, windows, clocks) {
        return false;
    }
    !before(b, a, lists, windows, clocks)
}
