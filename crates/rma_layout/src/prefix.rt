//! The first elements of copies of a datatype: how many bytes they have, and what they have in common.
ghost use Rattle.std.specs.Prelude.{◌≡◌, ◌*◌, ◌<◌, ◌≤◌, ℕ, ℤ, length, sum_by, take, IfOk, IfErr};
ghost use Rattle.rma_base.specs.Limits.{element_limit};
ghost use Rattle.rma_datatype.specs.Basic.{basic_size};
ghost use Rattle.rma_typemap.specs.Bounds.{entry_count};
ghost use Rattle.rma_type.specs.Signature.{spread};
ghost use Rattle.rma_type.specs.Table.{typemaps, typemap_in};
ghost use Rattle.rma_layout.specs.Touched.{touched};
ghost use Rattle.rma_layout.specs.Layout.{IsElementOf};
ghost use Rattle.rma_layout.specs.inside.Bytes.{bytes_in};

use crate::distance::all_bytes;
use crate::fault::LayoutError;
use rma_datatype::Basic;
use rma_type::{SigRun, TypeId, TypeTable};

/// The bytes of the first elements of a signature.
fn prefix_bytes(runs: &[SigRun], elements: u64) -> u64
    requires { length (spread runs.now) ≤ element_limit }
    ensures value { result ≡ sum_by basic_size (take elements (spread runs.now)) }
    ensures small { result ≤ 8 * element_limit }
{
    let mut left = elements;
    let mut total = 0;
    'each: for run in runs {
        if left == 0 {
            return total;
        }
        let count = left.min(run.count);
        total += count * run.basic.size();
        left -= count;
    }
    total
}

/// The bytes of the first elements of copies of a datatype.
pub(crate) fn touched_bytes(types: &TypeTable, id: TypeId, entries: u64) -> Result<u64, LayoutError>
    requires { id.0 < length types.now.origins }
    ensures ok { (count : ℕ) (address : ℤ) → entries ≤ count * entry_count (typemap_in (typemaps types.now.origins) id) → IfOk result (λ total. total ≡ length (bytes_in (touched (typemap_in (typemaps types.now.origins) id) count address entries))) }
    ensures memory { IfErr result (λ e. e ≡ LayoutError.Memory) }
{
    let made = types.made(id);
    if made.entries == 0 {
        return Ok(0);
    }
    let whole = all_bytes(entries / made.entries, made.size)?;
    match whole.checked_add(prefix_bytes(types.signature(id), entries % made.entries)) {
        Some(total) => Ok(total),
        None => Err(LayoutError::Memory),
    }
}

/// The basic datatype that the first elements of copies of a datatype have, where there is one.
pub(crate) fn common_element(types: &TypeTable, id: TypeId, entries: u64) -> Option<Basic>
    requires { id.0 < length types.now.origins }
    ensures { (count : ℕ) (address : ℤ) → entries ≤ count * entry_count (typemap_in (typemaps types.now.origins) id) → IsElementOf (touched (typemap_in (typemaps types.now.origins) id) count address entries) result }
{
    if entries == 0 {
        return None;
    }
    match types.signature(id) {
        [] => None,
        [run] => Some(run.basic),
        [run, ..] if entries <= run.count => Some(run.basic),
        _ => None,
    }
}
