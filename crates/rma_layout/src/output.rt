//! What is written: blocks of bytes in the order of the entries, cut at the last byte that is touched.
ghost use Rattle.std.specs.Prelude.{◌≡◌, ◌+◌, ◌<◌, ◌≤◌, ◌++◌, [], pos, length, IfOk, OnOk, IfErr, take, drop};
ghost use Rattle.rma_base.specs.Limits.{block_limit};
ghost use Rattle.rma_typemap.specs.Typemap.{gap};
ghost use Rattle.rma_layout.specs.inside.Bytes.{span, bytes_of, begins, copies, moved};
ghost use Rattle.rma_layout.specs.inside.Output.{IsSound, Appends, Refuses, sealed};

use crate::block::{Block, end, shifted};
use crate::distance::{Distance, all_bytes, length};
use crate::fault::{LayoutError, LayoutFault};
use rma_base::limits::BLOCKS;
use smallvec::SmallVec;
use std::alloc::Global;

/// The blocks that are written so far.
#[derive(Drop)]
pub(crate) struct Output {
    /// The blocks in the order of the entries. Where one begins at the end of the one before it, the two count as one.
    pub(crate) blocks: SmallVec<Block, 4>,
    /// The number of bytes that are still to be written.
    pub(crate) left: u64,
    /// How many blocks do not begin where the one before them ends, the first included.
    pub(crate) count: u64,
    /// Where the last byte ends.
    pub(crate) reached: Option<Distance>,
    /// The blocks before this one stay as they are: they are copied from.
    pub(crate) floor: usize,
}

/// 1 where a block does not start where what is written ends, and else 0.
fn begins(reached: Option<Distance>, block: Block) -> u64
    ensures value { result ≡ begins reached block.start }
    ensures small { result ≤ 1 }
{
    match reached {
        None => 1,
        Some(end) if end.is(block.start) => 0,
        Some(_) => 1,
    }
}

/// The number of blocks with one more, unless what is written ends where that begins.
fn counted(count: u64, reached: Option<Distance>, block: Block) -> Result<u64, LayoutError>
    requires { count ≤ block_limit }
    ensures ok { IfOk result (λ n. n ≡ count + begins reached block.start) }
    ensures few { IfOk result (λ n. n ≤ block_limit) }
    ensures fault { IfErr result (λ e. e ≡ LayoutError.Fault LayoutFault.TooManyBlocks) }
    ensures many { IfErr result (λ e. block_limit < count + begins reached block.start) }
{
    let more = begins(reached, block);
    if count + more > BLOCKS {
        Err(LayoutError::Fault(LayoutFault::TooManyBlocks))
    } else {
        Ok(count + more)
    }
}

/// Puts a block after the others: as a part of the last one, where that ends there and is not one of the first `floor`.
fn put(blocks: &mut SmallVec<Block, 4>, floor: usize, block: Block) -> Result<(), LayoutError>
    requires { floor ≤ length blocks.old.items }
    ensures bytes { OnOk result (bytes_of blocks.new.items ≡ bytes_of blocks.old.items ++ span block.start block.len) }
    ensures kept { OnOk result (take floor blocks.new.items ≡ take floor blocks.old.items) }
    ensures within { OnOk result (floor ≤ length blocks.new.items) }
    ensures memory { IfErr result (λ e. e ≡ LayoutError.Memory) }
{
    let n = blocks.len();
    if n > floor {
        let last = blocks[n - 1];
        if end(last)?.is(block.start) {
            let Some(len) = last.len.checked_add(block.len) else {
                return Err(LayoutError::Memory);
            };
            blocks[n - 1] = Block { len, ..last };
            return Ok(());
        }
    }
    match blocks.push(block) {
        Ok(()) => Ok(()),
        Err(_) => Err(LayoutError::Memory),
    }
}

impl Output {
    /// Nothing is written, and `left` bytes are to be.
    pub(crate) fn new(alloc: Global, left: u64) -> Output
        ensures sound { IsSound result }
        ensures none { result.blocks.items ≡ [] }
        ensures all { result.left ≡ left }
        ensures floor { result.floor ≡ 0 }
    {
        Output {
            blocks: SmallVec::new(alloc),
            left,
            count: 0,
            reached: None,
            floor: 0,
        }
    }

    /// Writes a block, as far as there are bytes to be written.
    pub(crate) fn push(&mut self, block: Block) -> Result<(), LayoutError>
        requires { IsSound self.old }
        ensures ok { OnOk result (Appends self.old self.new (span block.start block.len)) }
        ensures fault { IfErr result (Refuses self.old (span block.start block.len)) }
    {
        let len = block.len.min(self.left);
        if len == 0 {
            return Ok(());
        }
        let cut = Block { len, ..block };
        match counted(self.count, self.reached, cut) {
            Ok(count) => self.count = count,
            Err(error) => return Err(error),
        }
        put(&mut self.blocks, self.floor, cut)?;
        self.reached = Some(end(cut)?);
        self.left -= len;
        Ok(())
    }

    /// Writes copies of a block, the first where it is, and each a stride after the one before it.
    pub(crate) fn push_copies(
        &mut self,
        block: Block,
        count: u64,
        stride: Distance,
    ) -> Result<(), LayoutError>
        requires { IsSound self.old }
        ensures ok { OnOk result (Appends self.old self.new (copies count (pos 0) stride (span block.start block.len))) }
        ensures fault { IfErr result (Refuses self.old (copies count (pos 0) stride (span block.start block.len))) }
    {
        if stride.is(length(block.len)) {
            let len = all_bytes(count, block.len)?;
            return self.push(Block {
                start: block.start,
                len,
            });
        }
        let len = block.len;
        let mut start = block.start;
        'copies: for _i in 0..count {
            if self.left == 0 {
                return Ok(());
            }
            if let Err(error) = self.push(Block { start, len }) {
                return Err(error);
            }
            start = start.plus(stride)?;
        }
        Ok(())
    }

    /// Writes the blocks from `from` to `to` again, moved by a number of bytes.
    fn copy_range(&mut self, from: usize, to: usize, by: Distance) -> Result<(), LayoutError>
        requires sound { IsSound self.old }
        requires order { from ≤ to }
        requires within { to ≤ self.old.floor }
        ensures ok { OnOk result (Appends self.old self.new (moved by (bytes_of (drop from (take to self.old.blocks.items))))) }
        ensures fault { IfErr result (Refuses self.old (moved by (bytes_of (drop from (take to self.old.blocks.items))))) }
    {
        'range: for i in from..to {
            if self.left == 0 {
                return Ok(());
            }
            let block = self.blocks[i];
            let copy = shifted(block, by)?;
            if let Err(error) = self.push(copy) {
                return Err(error);
            }
        }
        Ok(())
    }

    /// Writes copies of the blocks from `from` to `to`: the first moved by `at`, and each a stride after the one before it.
    pub(crate) fn copy_rows(
        &mut self,
        from: usize,
        to: usize,
        at: Distance,
        count: u64,
        stride: Distance,
    ) -> Result<(), LayoutError>
        requires sound { IsSound self.old }
        requires order { from ≤ to }
        requires within { to ≤ self.old.floor }
        ensures ok { OnOk result (Appends self.old self.new (copies count at stride (bytes_of (drop from (take to self.old.blocks.items))))) }
        ensures fault { IfErr result (Refuses self.old (copies count at stride (bytes_of (drop from (take to self.old.blocks.items))))) }
    {
        let mut by = at;
        'copies: for _i in 0..count {
            if self.left == 0 {
                return Ok(());
            }
            if let Err(error) = self.copy_range(from, to, by) {
                return Err(error);
            }
            by = by.plus(stride)?;
        }
        Ok(())
    }

    /// Keeps all that is written as it is, to be copied from.
    pub(crate) fn seal(&mut self)
        ensures { self.new ≡ sealed self.old }
    {
        self.floor = self.blocks.len();
    }

    /// Writes what stands from `from` on so many times more, each a stride after the one before it.
    pub(crate) fn again(
        &mut self,
        from: usize,
        count: u64,
        stride: Distance,
    ) -> Result<(), LayoutError>
        requires sound { IsSound self.old }
        requires within { from ≤ length self.old.blocks.items }
        ensures ok { OnOk result (Appends self.old self.new (copies count stride stride (bytes_of (drop from self.old.blocks.items)))) }
        ensures fault { IfErr result (Refuses self.old (copies count stride stride (bytes_of (drop from self.old.blocks.items)))) }
    {
        let to = self.blocks.len();
        if to - from == 1 {
            let block = self.blocks[from];
            return self.push_copies(shifted(block, stride)?, count, stride);
        }
        self.seal();
        self.copy_rows(from, to, stride, count, stride)
    }
}
