//! Copies of typemaps in rows and in blocks.
ghost use Rattle.std.specs.Prelude.{◌≡◌, ◌^◌, ◌+◌, ◌*◌, ◌<◌, ◌≤◌, pos, ◌*ℤ◌, ◌≤ℤ◌};
ghost use Rattle.rma_base.specs.Limits.{element_limit, address_limit};
ghost use Rattle.rma_typemap.specs.inside.Near.{IsNear, IsNearby, IsSound};
ghost use Rattle.rma_typemap.specs.Constructors.{times};
ghost use Rattle.rma_typemap.specs.inside.Summary.{extent_of, repeated, with_block, vector_of};

use crate::bound::extent;
use crate::summary::{Summary, displace, join, repeat};

/// The number of copies that a count says.
pub fn copies(count: i32) -> u64
    requires { pos 0 ≤ℤ count }
    ensures value { result ≡ times count }
    ensures small { result < 2 ^ 31 }
{
    count as u64
}

/// A displacement counted in extents, in bytes.
pub(crate) fn scaled(displacement: i32, extent: i128) -> i128
    requires { IsNear (2 ^ 50) extent }
    ensures value { result ≡ displacement *ℤ extent }
    ensures near { IsNear (2 ^ 81) result }
{
    i128::from(displacement) * extent
}

/// A displacement counted in bytes.
pub fn wide(displacement: i64) -> i128
    ensures value { result ≡ displacement }
    ensures near { IsNear (2 ^ 81) result }
{
    i128::from(displacement)
}

/// Copies one after the other.
pub(crate) fn contiguous(old: &Summary, count: u64) -> Summary
    requires near { IsNearby address_limit old.now }
    requires sound { IsSound old.now }
    requires small { count < 2 ^ 31 }
    requires few { count * old.now.entries ≤ element_limit }
    ensures value { result ≡ repeated count (extent_of old.now) old.now }
    ensures result_near { IsNearby (2 ^ 82) result }
    ensures result_sound { IsSound result }
    ensures entries { result.entries ≡ count * old.now.entries }
{
    repeat(old, count, extent(old))
}

/// Rows of copies one after the other, each row at the stride after the one before it, in bytes.
pub(crate) fn rows(old: &Summary, count: u64, length: u64, stride: i128) -> Summary
    requires near { IsNearby address_limit old.now }
    requires sound { IsSound old.now }
    requires count_small { count < 2 ^ 31 }
    requires length_small { length < 2 ^ 31 }
    requires stride_near { IsNear (2 ^ 81) stride }
    requires few { count * (length * old.now.entries) ≤ element_limit }
    ensures { result ≡ vector_of count length stride old.now }
{
    if count == 0 {
        Summary::empty()
    } else {
        repeat(&contiguous(old, length), count, stride)
    }
}

/// A typemap, and after it copies of another from a displacement on.
pub fn append_block(done: &Summary, old: &Summary, count: u64, at: i128) -> Summary
    requires near { IsNearby address_limit old.now }
    requires sound { IsSound old.now }
    requires done_near { IsNearby (2 ^ 83) done.now }
    requires done_sound { IsSound done.now }
    requires small { count < 2 ^ 31 }
    requires at_near { IsNear (2 ^ 81) at }
    requires few { done.now.entries + count * old.now.entries ≤ element_limit }
    ensures value { result ≡ with_block old.now done.now (count, at) }
    ensures result_near { IsNearby (2 ^ 83) result }
    ensures result_sound { IsSound result }
    ensures entries { result.entries ≡ done.now.entries + count * old.now.entries }
{
    let block = contiguous(old, count);
    join(done, &displace(&block, at))
}
