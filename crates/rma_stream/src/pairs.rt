//! What is found of pairs, as findings.
ghost use Rattle.std.specs.Prelude.{◌≡◌, ◌++◌, map, OnOk};
ghost use Rattle.rma_finding.specs.declared.finding.PairFinding.TheVariants as pair;
ghost use Rattle.rma_report.specs.declared.finding.Finding.TheVariants.{Pair};

use rma_base::Memory;
use rma_finding::{DoubledPost, ExposedLock, FoundRace, PairFinding};
use rma_report::{Finding, FindingList};

/// Appends races.
///
/// # Errors
///
/// `Memory` where there is none left.
pub(crate) fn push_races(list: &mut FindingList, races: Vec<FoundRace>) -> Result<(), Memory>
    ensures { OnOk result (list.new ≡ list.old ++ map (λ race. Pair (pair.Race race)) races.items) }
{
    for race in races {
        list.push(Finding::Pair(PairFinding::Race(race)))?;
    }
    Ok(())
}

/// Appends locks of exposed targets.
///
/// # Errors
///
/// `Memory` where there is none left.
pub(crate) fn push_exposed(list: &mut FindingList, locks: Vec<ExposedLock>) -> Result<(), Memory>
    ensures { OnOk result (list.new ≡ list.old ++ map (λ lock. Pair (pair.Exposed lock)) locks.items) }
{
    for lock in locks {
        list.push(Finding::Pair(PairFinding::Exposed(lock)))?;
    }
    Ok(())
}

/// Appends posts of targets that fences expose.
///
/// # Errors
///
/// `Memory` where there is none left.
pub(crate) fn push_doubled(list: &mut FindingList, posts: Vec<DoubledPost>) -> Result<(), Memory>
    ensures { OnOk result (list.new ≡ list.old ++ map (λ post. Pair (pair.Doubled post)) posts.items) }
{
    for post in posts {
        list.push(Finding::Pair(PairFinding::Doubled(post)))?;
    }
    Ok(())
}
