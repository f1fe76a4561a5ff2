//! What the definitions of this crate come to.
ghost use Rattle.std.specs.Prelude.{◌≡◌, ℕ, Contains, List, true};
ghost use Rattle.rma_base.specs.declared.rank.Rank.{Rank};
ghost use Rattle.rma_call.specs.Call.{Call, RankCalls};
ghost use Rattle.rma_window.specs.Windows.{Window};
ghost use Rattle.rma_rules.specs.declared.span.Exposure.{Exposure};
ghost use Rattle.rma_fenced.specs.declared.phase.Phase.{Phase};
ghost use Rattle.rma_fenced.specs.Fenced.{HasSame, accessed_in, fenced_of, is_accessed};
ghost use Rattle.rma_fenced.specs.Laws.{IsAccessed, IsBetweenFences};

/// The phases of a run in which accesses stand are those of its sound accesses in phases, each by the fence of its target that is
/// of the round of the fence that opened the phase of its rank.
pub fn accessed_phases_are_those_of_accesses()
    ensures all { (ranks : List RankCalls) (target fence : ℕ) → IsAccessed ranks target fence → is_accessed (accessed_in ranks) target fence ≡ true }
    ensures only { (ranks : List RankCalls) (target fence : ℕ) → is_accessed (accessed_in ranks) target fence ≡ true → IsAccessed ranks target fence }
{}

/// The exposures between fences are the same by lists that have the same phases.
pub fn exposures_are_those_of_the_phases()
    ensures { (phases others : List Phase) (windows : List Window) (rank : Rank) (sound : List Call) → HasSame phases others
        → fenced_of phases windows rank sound ≡ fenced_of others windows rank sound }
{}

/// The exposures between the fences of a rank are those from one sound fence to the next on its window, where an access stands in the
/// phase.
pub fn exposures_are_between_fences()
    ensures only { (phases : List Phase) (windows : List Window) (rank : Rank) (sound : List Call) (exposure : Exposure) → Contains (fenced_of phases windows rank sound) exposure
        → IsBetweenFences phases windows rank sound exposure }
    ensures all { (phases : List Phase) (windows : List Window) (rank : Rank) (sound : List Call) (exposure : Exposure) → IsBetweenFences phases windows rank sound exposure
        → Contains (fenced_of phases windows rank sound) exposure }
{}
