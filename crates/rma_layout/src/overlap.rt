//! Whether bytes were written twice.
ghost use Rattle.std.specs.Prelude.{◌≡◌, sum_by};
ghost use Rattle.rma_bytes.specs.declared.run.Run.{Run};

use rma_bytes::Runs;

/// The number of bytes of a set.
pub(crate) fn bytes_of(runs: &Runs) -> u64
    ensures { result ≡ sum_by (λ (r : Run). r.len) runs.now }
{
    let mut total = 0;
    'each: for i in 0..runs.len() {
        total += runs.get(i).len;
    }
    total
}
