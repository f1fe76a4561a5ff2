//! Parts of arrays.
ghost use Rattle.std.specs.Prelude.{◌≡◌, ◌^◌, ◌*◌, ◌+◌, ◌-◌, ◌<◌, ◌≤◌, pos, ◌≤ℤ◌, ◌<ℤ◌, ◌*ℤ◌, length, true, slice_index_or, IsTrue, ◌↔◌, nat_lt, int_lt};
ghost use Rattle.std.specs.List.{list_all};
ghost use Rattle.rma_base.specs.Limits.{element_limit, address_limit};
ghost use Rattle.rma_typemap.specs.inside.Near.{IsNear, IsNearby, IsSound};
ghost use Rattle.rma_typemap.specs.Array.{is_between, is_part, cut_of, cuts_of, whole_of_cuts, part_of_cuts, IsCut};
ghost use Rattle.rma_typemap.specs.Constructors.{slowest_first};
ghost use Rattle.rma_typemap.specs.inside.Summary.{cut_part, repeated, displaced};

use crate::blocks::product;
use crate::summary::{Summary, displace, repeat};
use rma_base::limits::{self, ELEMENTS};
use rma_datatype::{Dimension, Order};

/// The end of the space of addresses.
const SPACE: u128 = limits::SPACE as u128;

/// Whether a number lies from `low` to `high`.
fn between(low: i32, x: i32, high: i32) -> bool
    ensures { result ≡ is_between low x high }
{
    low <= x && x <= high
}

/// Whether the part of a dimension has an element, and so the whole has one, and the part lies in the whole.
fn fits(dimension: Dimension) -> bool
    ensures { result ≡ is_part dimension }
{
    let Dimension { size, part, start } = dimension;
    between(1, part, size) && between(0, start, size - part)
}

/// Whether every dimension has a part that lies in it.
pub fn all_fit(dimensions: &[Dimension]) -> bool
    ensures { result ≡ list_all is_part dimensions.now }
{
    dimensions.iter().all(|dimension| fits(*dimension))
}

/// A dimension of the part of an array.
#[derive(Clone, Copy, Debug)]
pub(crate) struct Cut {
    /// The number of elements of the whole.
    pub(crate) whole: u64,
    /// The number of elements of the part.
    pub(crate) part: u64,
    /// The index of the first element of the part.
    pub(crate) start: u64,
}

/// The dimension as a cut.
fn cut_from(dimension: Dimension) -> Cut
    requires { is_part dimension ≡ true }
    ensures value { result ≡ cut_of dimension }
    ensures sound { IsCut result }
{
    Cut {
        whole: dimension.size as u64,
        part: dimension.part as u64,
        start: dimension.start as u64,
    }
}

/// The dimension that varies the k-th fastest, from 0.
fn nth_fastest(order: Order, dimensions: &[Dimension], k: usize) -> Cut
    requires within { k < length dimensions.now }
    requires parts { list_all is_part dimensions.now ≡ true }
    ensures value { result ≡ slice_index_or (cuts_of order dimensions.now) (length dimensions.now - 1 - k) result }
    ensures sound { IsCut result }
{
    match order {
        Order::LastFastest => cut_from(dimensions[dimensions.len() - 1 - k]),
        Order::FirstFastest => cut_from(dimensions[k]),
    }
}

/// Whether the parts together have more copies than `ELEMENTS`, of as many entries each.
pub(crate) fn too_many(order: Order, dimensions: &[Dimension], entries: u64) -> bool
    requires parts { list_all is_part dimensions.now ≡ true }
    requires few { entries ≤ element_limit }
    ensures { result ≡ nat_lt element_limit (part_of_cuts (cuts_of order dimensions.now) * entries) }
{
    let mut total = entries;
    for k in 0..dimensions.len() {
        if total > ELEMENTS {
            return true;
        }
        total *= nth_fastest(order, dimensions, k).part;
    }
    total > ELEMENTS
}

/// Whether the whole array has more elements than there are addresses.
pub fn too_large(order: Order, dimensions: &[Dimension]) -> bool
    requires parts { list_all is_part dimensions.now ≡ true }
    ensures { result ≡ nat_lt address_limit (whole_of_cuts (cuts_of order dimensions.now)) }
{
    let mut total = 1_u128;
    for k in 0..dimensions.len() {
        if total > SPACE {
            return true;
        }
        total *= u128::from(nth_fastest(order, dimensions, k).whole);
    }
    total > SPACE
}

/// The number of elements of the whole array.
pub(crate) fn whole(order: Order, dimensions: &[Dimension]) -> u64
    requires parts { list_all is_part dimensions.now ≡ true }
    requires small { whole_of_cuts (cuts_of order dimensions.now) ≤ address_limit }
    ensures { result ≡ whole_of_cuts (cuts_of order dimensions.now) }
{
    let mut total = 1;
    for k in 0..dimensions.len() {
        total *= nth_fastest(order, dimensions, k).whole;
    }
    total
}

/// Rows of what is there, a stride apart, from the start of the part.
fn row(part: &Summary, cut: Cut, stride: i128) -> Summary
    requires near { IsNearby (2 ^ 100) part.now }
    requires sound { IsSound part.now }
    requires stride_near { IsNear (2 ^ 99) stride }
    requires fits { IsCut cut }
    requires distance_near { IsNear (2 ^ 99) (pos cut.whole *ℤ stride) }
    requires few { cut.part * part.now.entries ≤ element_limit }
    ensures { result ≡ displaced (pos cut.start *ℤ stride) (repeated cut.part stride part.now) }
{
    let rows = repeat(part, cut.part, stride);
    displace(&rows, product(cut.start, stride))
}

/// The part of an array, of which each element has the summary and the extent.
pub(crate) fn part(old: &Summary, extent: i128, order: Order, dimensions: &[Dimension]) -> Summary
    requires near { IsNearby address_limit old.now }
    requires sound { IsSound old.now }
    requires extent_near { IsNear (2 ^ 50) extent }
    requires parts { list_all is_part dimensions.now ≡ true }
    requires small { whole_of_cuts (cuts_of order dimensions.now) ≤ address_limit }
    requires few { part_of_cuts (cuts_of order dimensions.now) * old.now.entries ≤ element_limit }
    ensures { result ≡ cut_part extent (cuts_of order dimensions.now) old.now }
{
    let mut part = *old;
    let mut stride = extent;
    for k in 0..dimensions.len() {
        let cut = nth_fastest(order, dimensions, k);
        part = row(&part, cut, stride);
        stride = product(cut.whole, stride);
    }
    part
}
