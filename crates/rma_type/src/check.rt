//! What is asked of a constructor's arguments alone.
ghost use Rattle.std.specs.Prelude.{◌≡◌, ◌||◌, false};
ghost use Rattle.std.specs.List.{list_any};
ghost use Rattle.rma_type.specs.Refusal.{is_negative, has_negative, breaks_array, has_large_array};

use rma_datatype::{Block, ByteBlock, Make, Member};
use rma_typemap::{all_fit, too_large};

/// Whether a count is negative.
fn below_zero(count: i32) -> bool
    ensures { result ≡ is_negative count }
{
    count < 0
}

/// Whether one of two counts is negative.
fn one_below_zero(count: i32, length: i32) -> bool
    ensures { result ≡ (is_negative count || is_negative length) }
{
    below_zero(count) || below_zero(length)
}

/// Whether a block has a negative length.
fn block_below_zero(blocks: &[Block]) -> bool
    ensures { result ≡ list_any (λ b. is_negative b.length) blocks.now }
{
    blocks.iter().any(|block| below_zero(block.length))
}

/// Whether a block has a negative length.
fn byte_block_below_zero(blocks: &[ByteBlock]) -> bool
    ensures { result ≡ list_any (λ b. is_negative b.length) blocks.now }
{
    blocks.iter().any(|block| below_zero(block.length))
}

/// Whether a member has a negative length.
fn member_below_zero(members: &[Member]) -> bool
    ensures { result ≡ list_any (λ m. is_negative m.length) members.now }
{
    members.iter().any(|member| below_zero(member.length))
}

/// Whether a count or a block length is negative.
pub(crate) fn negative(constructor: &Make) -> bool
    ensures { result ≡ has_negative constructor.now }
{
    match constructor {
        Make::Contiguous { count, .. } => below_zero(*count),
        Make::Vector { count, length, .. } => one_below_zero(*count, *length),
        Make::Hvector { count, length, .. } => one_below_zero(*count, *length),
        Make::Indexed { blocks, .. } => block_below_zero(blocks.as_slice()),
        Make::Hindexed { blocks, .. } => byte_block_below_zero(blocks.as_slice()),
        Make::IndexedBlock { length, .. } => below_zero(*length),
        Make::Struct { members } => member_below_zero(members.as_slice()),
        Make::Resized { .. } | Make::Subarray { .. } => false,
    }
}

/// Whether a part does not lie in its array.
pub(crate) fn broken(constructor: &Make) -> bool
    ensures { result ≡ breaks_array constructor.now }
{
    match constructor {
        Make::Subarray { dimensions, .. } => !all_fit(dimensions.as_slice()),
        _ => false,
    }
}

/// Whether an array has more elements than there are addresses.
pub(crate) fn large(constructor: &Make) -> bool
    requires { breaks_array constructor.now ≡ false }
    ensures { result ≡ has_large_array constructor.now }
{
    match constructor {
        Make::Subarray {
            order,
            dimensions,
            ..
        } => too_large(*order, dimensions.as_slice()),
        _ => false,
    }
}
