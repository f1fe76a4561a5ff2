//! What the definitions of this crate come to.
ghost use Rattle.std.specs.Prelude.{◌≡◌, List};
ghost use Rattle.rma_call.specs.Call.{RankCalls};
ghost use Rattle.rma_link.specs.declared.links.Links.{Links};
ghost use Rattle.rma_window.specs.Windows.{Window};
ghost use Rattle.rma_rules.specs.Access.{Access};
ghost use Rattle.rma_rules.specs.Spans.{Spans};
ghost use Rattle.rma_rules.specs.declared.rule.Rule.{Rule};
ghost use Rattle.rma_span.specs.Span.{accesses};
ghost use Rattle.rma_accesses.specs.Run.{AreGood};
ghost use Rattle.rma_finding.specs.declared.finding.FoundRace.{FoundRace};
ghost use Rattle.rma_pairs.specs.Race.{Race};
ghost use Rattle.rma_pairs.specs.Races.{AreRaces, HaveNames, IsFound};

/// Each access of a run of good logs has a name of its own.
pub fn accesses_have_names_of_their_own()
    ensures { (ranks : List RankCalls) → AreGood ranks → HaveNames (accesses ranks) }
{}

/// Which of two accesses is the first makes no difference to whether they race.
pub fn races_are_symmetric()
    ensures { (links : Links) (windows : List Window) (spans : Spans) (a b : Access) (rule : Rule) → Race links windows spans a b rule → Race links windows spans b a rule }
{}

/// The races between some accesses are one list.
pub fn races_are_one_list()
    ensures { (links : Links) (windows : List Window) (spans : Spans) (list : List Access) (found other : List FoundRace)
        → AreRaces links windows spans list found → AreRaces links windows spans list other → found ≡ other }
{}

/// Between accesses that have names of their own, two names have one race at most.
pub fn names_have_one_race()
    ensures { (links : Links) (windows : List Window) (spans : Spans) (list : List Access) (f g : FoundRace) → HaveNames list → IsFound links windows spans list f → IsFound links windows spans list g
        → f.first ≡ g.first → f.second ≡ g.second → f ≡ g }
{}
