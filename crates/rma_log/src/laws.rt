//! What the definitions of this crate come to.
ghost use Rattle.std.specs.Prelude.{◌≡◌, ℕ, List, Option};
ghost use Rattle.rma_log.specs.Ends.{IsEnd};
ghost use Rattle.rma_log.specs.Logs.{Checked, IsLogFault};
ghost use Rattle.rma_log.specs.declared.fault.BookEnd.{BookEnd};
ghost use Rattle.rma_log.specs.declared.fault.FormFault.{FormFault};

/// A log has one outcome: it has no bad line, or one first bad line with one reason; and its calls are determined.
pub fn logs_have_one_outcome()
    ensures fault { (rank logs : ℕ) (lines : List Checked) (fault other : Option FormFault) → IsLogFault rank logs lines fault → IsLogFault rank logs lines other → fault ≡ other }
    ensures end { (rank logs : ℕ) (lines : List Checked) (end other : BookEnd) → IsEnd rank logs lines end → IsEnd rank logs lines other → end ≡ other }
{}

/// Every log has an outcome: its lines are good with an end among them, or one is the first bad one, or the end is missing.
pub fn every_log_has_an_outcome()
    ensures { (rank logs : ℕ) (lines : List Checked) → (end : BookEnd) × IsEnd rank logs lines end }
{}
