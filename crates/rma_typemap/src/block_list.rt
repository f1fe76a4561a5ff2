//! Blocks one after another, as the constructors with lists have them.
ghost use Rattle.std.specs.Prelude.{◌≡◌, ◌^◌, ◌*◌, ◌≤◌, pos, ◌≤ℤ◌, map, sum_by, length, ◌<◌, All};
ghost use Rattle.rma_base.specs.Limits.{element_limit, address_limit};
ghost use Rattle.rma_typemap.specs.inside.Near.{IsNear, IsNearby, IsSound};
ghost use Rattle.rma_typemap.specs.Constructors.{times};
ghost use Rattle.rma_typemap.specs.inside.Summary.{extent_of, indexed_of, block_in_extents, block_in_bytes, block_at};

use crate::bound::extent;
use crate::copy::{append_block, copies, scaled, wide};
use crate::summary::Summary;
use rma_datatype::{Block, ByteBlock};

/// The blocks of `indexed`.
pub(crate) fn indexed(old: &Summary, blocks: &[Block]) -> Summary
    requires near { IsNearby address_limit old.now }
    requires sound { IsSound old.now }
    requires counts { All (λ b. pos 0 ≤ℤ b.length) blocks.now }
    requires few { sum_by (λ b. times b.length) blocks.now * old.now.entries ≤ element_limit }
    ensures { result ≡ indexed_of old.now (map (block_in_extents (extent_of old.now)) blocks.now) }
{
    let extent = extent(old);
    let mut done = Summary::empty();
    for block in blocks {
        let at = scaled(block.displacement, extent);
        done = append_block(&done, old, copies(block.length), at);
    }
    done
}

/// The blocks of `hindexed`.
pub(crate) fn hindexed(old: &Summary, blocks: &[ByteBlock]) -> Summary
    requires near { IsNearby address_limit old.now }
    requires sound { IsSound old.now }
    requires counts { All (λ b. pos 0 ≤ℤ b.length) blocks.now }
    requires few { sum_by (λ b. times b.length) blocks.now * old.now.entries ≤ element_limit }
    ensures { result ≡ indexed_of old.now (map block_in_bytes blocks.now) }
{
    let mut done = Summary::empty();
    for block in blocks {
        let at = wide(block.displacement);
        done = append_block(&done, old, copies(block.length), at);
    }
    done
}

/// The blocks of `indexed_block`.
pub(crate) fn indexed_block(old: &Summary, count: u64, displacements: &[i32]) -> Summary
    requires near { IsNearby address_limit old.now }
    requires sound { IsSound old.now }
    requires small { count < 2 ^ 31 }
    requires few { length displacements.now * (count * old.now.entries) ≤ element_limit }
    ensures { result ≡ indexed_of old.now (map (block_at (extent_of old.now) count) displacements.now) }
{
    let extent = extent(old);
    let mut done = Summary::empty();
    for displacement in displacements {
        let at = scaled(*displacement, extent);
        done = append_block(&done, old, count, at);
    }
    done
}
