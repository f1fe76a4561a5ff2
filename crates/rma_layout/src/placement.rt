//! The layout of a buffer.
ghost use Rattle.std.specs.Prelude.{◌≡◌, ◌*◌, ◌<◌, ◌≤◌, pos, ◌≤ℤ◌, length, IfOk, OnOk, IfErr, None};
ghost use Rattle.rma_base.specs.Limits.{address_limit};
ghost use Rattle.rma_typemap.specs.Bounds.{entry_count};
ghost use Rattle.rma_type.specs.Table.{typemaps, typemap_in};
ghost use Rattle.rma_layout.specs.Touched.{touched};
ghost use Rattle.rma_layout.specs.Layout.{IsLayoutOf};
ghost use Rattle.rma_layout.specs.Refusal.{refusal, IsErrorOf};

use crate::expand::write_copies;
use crate::fault::{LayoutError, LayoutFault};
use crate::output::Output;
use crate::overlap::bytes_of;
use crate::prefix::{common_element, touched_bytes};
use crate::space::Space;
use rma_base::limits::ELEMENTS;
use rma_bytes::{Layout, Runs};
use rma_type::{TypeId, TypeTable};

/// The layout of the first `entries` elements of `count` copies of a datatype at an address.
///
/// # Errors
/// The first [`LayoutFault`], in their order, whose rule holds; and [`LayoutError::Memory`].
pub fn place(
    types: &TypeTable,
    datatype: TypeId,
    count: u32,
    address: i64,
    entries: u64,
    space: Space,
) -> Result<Layout, LayoutError>
    requires within { datatype.0 < length types.now.origins }
    requires low { pos 0 ≤ℤ address }
    requires high { address ≤ℤ pos address_limit }
    requires there { entries ≤ count * entry_count (typemap_in (typemaps types.now.origins) datatype) }
    ensures ok { IfOk result (IsLayoutOf (touched (typemap_in (typemaps types.now.origins) datatype) count address entries)) }
    ensures taken { OnOk result (refusal space (touched (typemap_in (typemaps types.now.origins) datatype) count address entries) entries ≡ None) }
    ensures fault { IfErr result (IsErrorOf (refusal space (touched (typemap_in (typemaps types.now.origins) datatype) count address entries) entries)) }
{
    if entries > ELEMENTS {
        return Err(LayoutError::Fault(LayoutFault::TooManyElements));
    }
    let alloc = types.allocator();
    let total = touched_bytes(types, datatype, entries)?;
    let mut output = Output::new(alloc, total);
    let by = i128::from(address);
    if let Err(error) = write_copies(types, datatype, count, by, &mut output) {
        return Err(error);
    }
    if !space.has_all(output.blocks.as_slice()) {
        return Err(LayoutError::Fault(LayoutFault::OutOfSpace));
    }
    let blocks = space.runs(alloc, output.blocks.as_slice())?;
    let Ok(runs) = Runs::from_blocks(alloc, blocks.as_slice()) else {
        return Err(LayoutError::Memory);
    };
    let overlaps = bytes_of(&runs) < total;
    let element = common_element(types, datatype, entries);
    match Layout::new(alloc, runs, element, overlaps) {
        Ok(layout) => Ok(layout),
        Err(_) => Err(LayoutError::Memory),
    }
}
