//! What the definitions of this crate come to.
ghost use Rattle.rma_bytes.specs.Runs.{CanonicalRunsAreUnique};

/// Of all lists in canonical form one alone has given bytes, so sets are equal exactly where their lists are.
pub fn canonical_runs_are_unique()
    ensures { CanonicalRunsAreUnique }
{}
