//! How many elements a constructor would make.
ghost use Rattle.std.specs.Prelude.{◌≡◌, ◌^◌, ◌*◌, ◌<◌, ◌≤◌, ◌≤ℤ◌, pos, sum_by, length, All, nat_lt};
ghost use Rattle.rma_base.specs.Limits.{element_limit};
ghost use Rattle.rma_typemap.specs.Constructors.{times};
ghost use Rattle.rma_typemap.specs.inside.Counts.{copies_of, IsCounted};

use crate::array;
use crate::copy::copies;
use rma_base::limits;
use rma_datatype::{Block, ByteBlock, Make};

/// The most elements of a datatype.
const ELEMENTS: u128 = limits::ELEMENTS as u128;

/// The copies of all blocks together.
fn block_copies(blocks: &[Block]) -> u128
    requires { All (λ b. pos 0 ≤ℤ b.length) blocks.now }
    ensures value { result ≡ sum_by (λ b. times b.length) blocks.now }
    ensures small { result < 2 ^ 96 }
{
    let mut total = 0;
    for block in blocks {
        total += u128::from(copies(block.length));
    }
    total
}

/// The copies of all blocks together.
fn byte_block_copies(blocks: &[ByteBlock]) -> u128
    requires { All (λ b. pos 0 ≤ℤ b.length) blocks.now }
    ensures value { result ≡ sum_by (λ b. times b.length) blocks.now }
    ensures small { result < 2 ^ 96 }
{
    let mut total = 0;
    for block in blocks {
        total += u128::from(copies(block.length));
    }
    total
}

/// Whether copies of as many entries each are more than `ELEMENTS`.
fn more(copies: u128, entries: u64) -> bool
    requires few { copies < 2 ^ 96 }
    requires small { entries ≤ element_limit }
    ensures { result ≡ nat_lt element_limit (copies * entries) }
{
    copies * u128::from(entries) > ELEMENTS
}

/// Whether rows of `length` copies, of as many entries each, are more than `ELEMENTS`.
fn more_rows(rows: u64, length: u64, entries: u64) -> bool
    requires length_small { length < 2 ^ 31 }
    requires small { entries ≤ element_limit }
    ensures { result ≡ nat_lt element_limit (rows * length * entries) }
{
    more(u128::from(rows) * u128::from(length), entries)
}

/// Whether a constructor would make more than `ELEMENTS` elements of an old datatype with this number of entries.
pub fn exceeds(constructor: &Make, entries: u64) -> bool
    requires counted { IsCounted constructor.now }
    requires small { entries ≤ element_limit }
    ensures { result ≡ nat_lt element_limit (copies_of constructor.now * entries) }
{
    match constructor {
        Make::Contiguous { count, .. } => more(u128::from(copies(*count)), entries),
        Make::Vector { count, length, .. } => more_rows(copies(*count), copies(*length), entries),
        Make::Hvector { count, length, .. } => more_rows(copies(*count), copies(*length), entries),
        Make::Indexed { blocks, .. } => more(block_copies(blocks.as_slice()), entries),
        Make::Hindexed { blocks, .. } => more(byte_block_copies(blocks.as_slice()), entries),
        Make::IndexedBlock {
            length,
            displacements,
            ..
        } => more_rows(displacements.len() as u64, copies(*length), entries),
        Make::Struct { .. } => false,
        Make::Resized { .. } => more(1, entries),
        Make::Subarray {
            order,
            dimensions,
            ..
        } => array::too_many(*order, dimensions.as_slice(), entries),
    }
}
