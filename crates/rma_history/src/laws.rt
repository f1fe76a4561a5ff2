//! What the definitions of this crate come to.
ghost use Rattle.std.specs.Prelude.{◌≤◌, ℕ, List, Option};
ghost use Rattle.rma_base.specs.declared.rank.Rank.{Rank};
ghost use Rattle.rma_link.specs.declared.links.Links.{Links};
ghost use Rattle.rma_window.specs.Windows.{Window};
ghost use Rattle.rma_rules.specs.Access.{Access, IsOnWindowOf};
ghost use Rattle.rma_rules.specs.Spans.{Spans};
ghost use Rattle.rma_finding.specs.declared.finding.FoundRace.{FoundRace};
ghost use Rattle.rma_pairs.specs.Races.{IsFoundBetween};
ghost use Rattle.rma_history.specs.History.{IsNextOf, IsOfCall, IsPassed, IsToCome};

/// An access that is before all those of its memory which are still to come races with none of them, nor with any to other memory.
pub fn passed_accesses_race_with_none_to_come()
    ensures { (links : Links) (windows : List Window) (spans : Spans) (next : List (Option ℕ)) (a b : Access) (race : FoundRace)
        → IsPassed links windows spans next a → IsToCome next b → IsOfCall b → IsOnWindowOf windows b → ¬ IsFoundBetween links windows spans a b race }
{}

/// An access that is before all those which are still to come stays so as calls are made: the next call of a rank is the same or a later
/// one, or there is none any more.
pub fn passed_accesses_stay_passed()
    ensures { (links : Links) (windows : List Window) (spans : Spans) (next later : List (Option ℕ)) (a : Access)
        → ((rank : Rank) (call : ℕ) → IsNextOf later rank call → (first : ℕ) × IsNextOf next rank first × (first ≤ call)) → IsPassed links windows spans next a → IsPassed links windows spans later a }
{}
