//! The order in which races are reported.
ghost use Rattle.std.specs.Prelude.{◌↔◌, Contains};
ghost use Rattle.rma_finding.specs.declared.finding.FoundRace.{FoundRace};
ghost use Rattle.rma_pairs.specs.Races.{Ascend, HaveOneRace};

use crate::names::place;
use rma_finding::FoundRace;

/// What is found of some accesses, in the order of the report and each once.
pub fn in_order(races: Vec<FoundRace>) -> Vec<FoundRace>
    requires { HaveOneRace races.items }
    ensures same { (race : FoundRace) → Contains result.items race ↔ Contains races.items race }
    ensures ascend { Ascend result.items }
{
    let mut races = races;
    races.sort_unstable_by_key(|race| (place(race.first), place(race.second)));
    races.dedup_by_key(|race| (place(race.first), place(race.second)));
    races
}
