//! What the definitions of this crate come to.
ghost use Rattle.std.specs.Prelude.{◌≡◌, ℕ, List, Contains, length};
ghost use Rattle.rma_call.specs.Call.{RankCalls};
ghost use Rattle.rma_kept.specs.Kept.{AreKept};
ghost use Rattle.rma_link.specs.declared.links.Links.{Links};
ghost use Rattle.rma_run.specs.Run.{AreInOrder};
ghost use Rattle.rma_window.specs.Windows.{Window};
ghost use Rattle.rma_rules.specs.Spans.{Spans};
ghost use Rattle.rma_span.specs.Span.{accesses};
ghost use Rattle.rma_accesses.specs.Run.{AreListsOf};
ghost use Rattle.rma_finding.specs.declared.finding.FoundRace.{FoundRace};
ghost use Rattle.rma_cut.specs.declared.cuts.Cuts.{Cuts};
ghost use Rattle.rma_explain.specs.Explanation.{AreCutsOf};

/// A race of a run has one pair of cuts, whichever lists stand beside its accesses.
pub fn explanations_are_one()
    ensures { (ranks : List RankCalls) (links : Links) (lens : List ℕ) (windows : List Window) (spans others : Spans) (race : FoundRace) (cuts more : Cuts)
        → AreInOrder ranks → ((own : RankCalls) → Contains ranks own → AreKept own.rank.0 (length ranks) own.calls) → AreListsOf ranks spans → AreListsOf ranks others
        → AreCutsOf links lens windows spans (accesses ranks) race cuts → AreCutsOf links lens windows others (accesses ranks) race more → cuts ≡ more }
{}
