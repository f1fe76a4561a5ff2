//! What the definitions of this crate come to.
ghost use Rattle.std.specs.Prelude.{◌≡◌, ℕ, List, [], Option, length};
ghost use Rattle.rma_cut.specs.declared.cuts.Cuts.{Cuts};
ghost use Rattle.rma_log.specs.declared.fault.BookEnd.{BookEnd};
ghost use Rattle.rma_report.specs.declared.finding.Finding.{Finding};
ghost use Rattle.rma_stream.specs.Explained.{AreExplained};
ghost use Rattle.rma_stream.specs.Strict.{AreStrictFindings};
ghost use Rattle.rma_stream.specs.Findings.{AreEnds, AreFindings, ArePairs, bad_lines, calls_in};

/// Every run has a list of findings, where its calls have a list of what is found of pairs if no line is bad.
pub fn every_run_has_findings()
    ensures { (logs : List (List ℕ)) → ((ends : List BookEnd) → AreEnds (length logs) 0 logs ends → bad_lines 0 ends ≡ [] → (pairs : List Finding) × ArePairs (calls_in ends) pairs)
        → (found : List Finding) × AreFindings logs found }
{}

/// The logs of a run have one list of findings, so a run that is clean has none.
pub fn findings_are_one_list()
    ensures { (logs : List (List ℕ)) (found others : List Finding) → AreFindings logs found → AreFindings logs others → found ≡ others }
{}

/// The logs of a run have one list of what a strict audit finds.
pub fn strict_findings_are_one_list()
    ensures { (logs : List (List ℕ)) (found others : List Finding) → AreStrictFindings logs found → AreStrictFindings logs others → found ≡ others }
{}

/// The logs of a run have one explanation of the finding of a number.
pub fn explanations_are_one()
    ensures { (logs : List (List ℕ)) (number : ℕ) (found others : List Finding) (cuts other : Option Cuts) → AreExplained logs number found cuts → AreExplained logs number others other → (found ≡ others) × (cuts ≡ other) }
{}
