//! The part of an array: one element of it, copied along each dimension, the fastest first.
ghost use Rattle.std.specs.Prelude.{◌≡◌, ◌-◌, ◌<◌, ◌≤◌, ◌*ℤ◌, length, drop, IfOk, IfErr, slice_index_or};
ghost use Rattle.rma_typemap.specs.Constructors.{slowest_first, whole};
ghost use Rattle.rma_layout.specs.inside.Steps.{start_of_part, has_part};

use crate::distance::Distance;
use crate::fault::LayoutError;
use rma_datatype::{Dimension, Order};

/// The dimension that varies the k-th fastest, from 0.
pub(crate) fn nth_fastest(order: Order, dimensions: &[Dimension], k: usize) -> Dimension
    requires { k < length dimensions.now }
    ensures { result ≡ slice_index_or (slowest_first order dimensions.now) (length dimensions.now - 1 - k) result }
{
    match order {
        Order::LastFastest => dimensions[dimensions.len() - 1 - k],
        Order::FirstFastest => dimensions[k],
    }
}

/// The distance of two elements of the array that are neighbours in the dimension that varies the k-th fastest, where
/// elements are an extent apart.
pub(crate) fn stride(
    order: Order,
    dimensions: &[Dimension],
    k: usize,
    extent: Distance,
) -> Result<Distance, LayoutError>
    requires { k ≤ length dimensions.now }
    ensures ok { IfOk result (λ stride. stride ≡ whole (drop (length dimensions.now - k) (slowest_first order dimensions.now)) *ℤ extent) }
    ensures memory { IfErr result (λ e. e ≡ LayoutError.Memory) }
{
    let mut stride = extent;
    'faster: for i in 0..k {
        let dimension = nth_fastest(order, dimensions, i);
        stride = stride.times(dimension.size)?;
    }
    Ok(stride)
}

/// Where the first element of the part lies.
pub(crate) fn start(
    order: Order,
    dimensions: &[Dimension],
    extent: Distance,
) -> Result<Distance, LayoutError>
    ensures ok { IfOk result (λ start. start ≡ start_of_part extent (slowest_first order dimensions.now)) }
    ensures memory { IfErr result (λ e. e ≡ LayoutError.Memory) }
{
    let mut stride = extent;
    let mut start = Distance::new(0);
    'each: for i in 0..dimensions.len() {
        let dimension = nth_fastest(order, dimensions, i);
        start = stride.times(dimension.start)?.plus(start)?;
        stride = stride.times(dimension.size)?;
    }
    Ok(start)
}

/// Whether the part has an element.
pub(crate) fn has_part(dimensions: &[Dimension]) -> bool
    ensures { result ≡ has_part dimensions.now }
{
    dimensions.iter().all(|dimension| dimension.part > 0)
}
