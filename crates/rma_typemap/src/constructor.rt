//! The summaries of the constructors with one old datatype.
ghost use Rattle.std.specs.Prelude.{◌≡◌, ◌^◌, ◌*◌, ◌≤◌, [], ◌∷◌, true};
ghost use Rattle.std.specs.List.{list_all};
ghost use Rattle.rma_base.specs.Limits.{element_limit, address_limit};
ghost use Rattle.rma_typemap.specs.Array.{is_part, cuts_of, whole_of_cuts, part_of_cuts};
ghost use Rattle.rma_typemap.specs.inside.Near.{IsNearby, IsSound};
ghost use Rattle.rma_typemap.specs.Typemap.{Typemap};
ghost use Rattle.rma_typemap.specs.Constructors.{constructed};
ghost use Rattle.rma_typemap.specs.inside.Summary.{summary, extent_of, marked_part};
ghost use Rattle.rma_typemap.specs.inside.Counts.{copies_of, IsSingle};

use crate::array;
use crate::block_list::{hindexed, indexed, indexed_block};
use crate::blocks::product;
use crate::bound::extent;
use crate::copy::{contiguous, copies, rows, scaled, wide};
use crate::summary::{Summary, mark};
use rma_datatype::{Dimension, Make, Order};

/// The summary of what a constructor makes of one old datatype with this summary. A struct is made by [`append_block`].
pub fn build(constructor: &Make, old: &Summary) -> Summary
    requires near { IsNearby address_limit old.now }
    requires sound { IsSound old.now }
    requires single { IsSingle constructor.now }
    requires few { copies_of constructor.now * old.now.entries ≤ element_limit }
    ensures { (parts : Typemap) → old.now ≡ summary parts → result ≡ summary (constructed constructor.now (parts ∷ [])) }
{
    match constructor {
        Make::Contiguous { count, .. } => contiguous(old, copies(*count)),
        Make::Vector {
            count,
            length,
            stride,
            ..
        } => rows(
            old,
            copies(*count),
            copies(*length),
            scaled(*stride, extent(old)),
        ),
        Make::Hvector {
            count,
            length,
            stride,
            ..
        } => rows(old, copies(*count), copies(*length), wide(*stride)),
        Make::Indexed { blocks, .. } => indexed(old, blocks.as_slice()),
        Make::Hindexed { blocks, .. } => hindexed(old, blocks.as_slice()),
        Make::IndexedBlock {
            length,
            displacements,
            ..
        } => indexed_block(old, copies(*length), displacements.as_slice()),
        Make::Struct { .. } => Summary::empty(),
        Make::Resized { lower, extent, .. } => {
            let low = i128::from(*lower);
            mark(old, low, low + i128::from(*extent))
        }
        Make::Subarray {
            order,
            dimensions,
            ..
        } => subarray(old, *order, dimensions.as_slice()),
    }
}

/// The part of an array, with the bounds of the whole.
fn subarray(old: &Summary, order: Order, dimensions: &[Dimension]) -> Summary
    requires near { IsNearby address_limit old.now }
    requires sound { IsSound old.now }
    requires parts { list_all is_part dimensions.now ≡ true }
    requires small { whole_of_cuts (cuts_of order dimensions.now) ≤ address_limit }
    requires few { part_of_cuts (cuts_of order dimensions.now) * old.now.entries ≤ element_limit }
    ensures { result ≡ marked_part (extent_of old.now) (cuts_of order dimensions.now) old.now }
{
    let extent = extent(old);
    let part = array::part(old, extent, order, dimensions);
    let whole = array::whole(order, dimensions);
    mark(&part, 0, product(whole, extent))
}
