//! How many calls the ranks make.
ghost use Rattle.std.specs.Prelude.{◌≡◌, ◌^◌, ◌<◌, All, IfOk};
ghost use Rattle.rma_run.specs.Run.{IsRun, lens_of};

use rma_base::Memory;
use rma_call::RankCalls;
use std::alloc::Global;

/// How many calls each rank makes.
///
/// # Errors
///
/// `Memory` where there is none left.
pub fn call_counts(alloc: Global, ranks: &[RankCalls]) -> Result<Vec<u32>, Memory>
    requires { IsRun ranks.now }
    ensures counts { IfOk result (λ counts. counts.items ≡ lens_of ranks.now) }
    ensures below { IfOk result (λ counts. All (λ calls. calls < 2 ^ 31) counts.items) }
{
    let mut counts = Vec::new(alloc);
    for own in ranks {
        counts.push(own.calls().len() as u32)?;
    }
    Ok(counts)
}
