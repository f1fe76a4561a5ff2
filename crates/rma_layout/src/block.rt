//! Bytes side by side, wherever they lie.
ghost use Rattle.std.specs.Prelude.{◌≡◌, pos, ◌+ℤ◌, IfOk, IfErr};

use crate::distance::{Distance, length};
use crate::fault::LayoutError;

/// Bytes side by side. They may lie outside the space of addresses.
#[derive(Clone, Copy, Debug, Default)]
pub(crate) struct Block {
    /// The address of the first byte.
    pub(crate) start: Distance,
    /// The number of bytes.
    pub(crate) len: u64,
}

/// Where the block ends.
pub(crate) fn end(block: Block) -> Result<Distance, LayoutError>
    ensures ok { IfOk result (λ e. e ≡ block.start +ℤ pos block.len) }
    ensures memory { IfErr result (λ e. e ≡ LayoutError.Memory) }
{
    block.start.plus(length(block.len))
}

/// The block, moved by a number of bytes.
pub(crate) fn shifted(block: Block, by: Distance) -> Result<Block, LayoutError>
    ensures start { IfOk result (λ b. b.start ≡ by +ℤ block.start) }
    ensures len { IfOk result (λ b. b.len ≡ block.len) }
    ensures memory { IfErr result (λ e. e ≡ LayoutError.Memory) }
{
    match by.plus(block.start) {
        Ok(start) => Ok(Block {
            start,
            len: block.len,
        }),
        Err(error) => Err(error),
    }
}
