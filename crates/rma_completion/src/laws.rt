//! What the definitions of this crate come to.
ghost use Rattle.std.specs.Prelude.{◌≡◌, ℕ, List, Bool, Some};
ghost use Rattle.rma_call.specs.Call.{Call};
ghost use Rattle.rma_completion.specs.Done.{IsFirstAfter, first_after};

/// The first call behind another one that meets a test is one that meets it, with none that does between them.
pub fn first_calls_are_first()
    ensures { (test : Call → Bool) (calls : List Call) (number first : ℕ) → first_after test calls number ≡ Some first → IsFirstAfter test calls number first }
{}
