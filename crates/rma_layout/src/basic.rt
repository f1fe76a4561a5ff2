//! Buffers of a basic datatype.
ghost use Rattle.std.specs.Prelude.{◌≡◌, ◌<◌, pos, ◌≤ℤ◌, length, IfSome, None};
ghost use Rattle.rma_base.specs.Limits.{address_limit};
ghost use Rattle.rma_layout.specs.Layout.{IsLayoutOf};
ghost use Rattle.rma_layout.specs.Refusal.{refusal};
ghost use Rattle.rma_layout.specs.Touched.{touched};
ghost use Rattle.rma_layout.specs.declared.space.Space.{Space};
ghost use Rattle.rma_type.specs.Table.{typemaps, typemap_in};

use rma_base::limits::{ELEMENTS, SPACE};
use rma_bytes::Layout;
use rma_type::{TypeId, TypeTable};

/// The layout of all elements of a basic datatype, which lie side by side, where there are some and they lie in the space.
/// Most buffers are such, and need no list of blocks.
#[inline]
pub(crate) fn side_by_side(
    types: &TypeTable,
    datatype: TypeId,
    count: u32,
    address: i64,
    entries: u64,
) -> Option<Layout>
    requires within { datatype.0 < length types.now.origins }
    requires low { pos 0 ≤ℤ address }
    requires high { address ≤ℤ pos address_limit }
    ensures is { IfSome result (IsLayoutOf (touched (typemap_in (typemaps types.now.origins) datatype) count address entries)) }
    ensures taken { IfSome result (λ layout. (space : Space) → refusal space (touched (typemap_in (typemaps types.now.origins) datatype) count address entries) entries ≡ None) }
{
    let basic = types.basic(datatype)?;
    let end = address as u64 + u64::from(count) * basic.size();
    if u64::from(count) == entries && 0 < entries && entries <= ELEMENTS && end <= SPACE {
        Some(Layout::side_by_side(basic, count, address))
    } else {
        None
    }
}
