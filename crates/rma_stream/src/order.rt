//! What the order of points finds.
ghost use Rattle.std.specs.Prelude.{◌≡◌, map, IfOk};
ghost use Rattle.rma_stream.specs.Findings.{impossible};

use rma_base::{Memory, Sequence};
use rma_order::ImpossibleCall;
use rma_report::{Finding, FindingList};
use std::alloc::Global;

/// Calls that are never left, as findings.
///
/// # Errors
///
/// `Memory` where there is none left.
pub(crate) fn impossible_findings(
    alloc: Global,
    found: &[ImpossibleCall],
) -> Result<FindingList, Memory>
    ensures { IfOk result (λ list. list ≡ map impossible found.now) }
{
    let mut list = Sequence::new(alloc);
    for call in found {
        list.push(Finding::Impossible {
            rank: call.rank,
            line: call.line,
        })?;
    }
    Ok(list)
}
