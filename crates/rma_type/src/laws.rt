//! What the definitions of this crate come to.
ghost use Rattle.std.specs.Prelude.{◌≡◌, List};
ghost use Rattle.rma_datatype.specs.declared.basic.Basic.{Basic};
ghost use Rattle.rma_type.specs.Signature.{IsRunsOf};
ghost use Rattle.rma_type.specs.declared.sig_run.SigRun.{SigRun};

/// A signature has one list of runs, so what `signature` answers is determined.
pub fn signatures_have_one_list_of_runs()
    ensures { (basics : List Basic) (runs others : List SigRun) → IsRunsOf basics runs → IsRunsOf basics others → runs ≡ others }
{}
