//! Which addresses a buffer may have.
ghost use Rattle.std.specs.Prelude.{◌≡◌, ℤ, IfOk, OnOk, IfErr, IsTrue, ◌↔◌, ◌⊎◌, ◌<◌};
ghost use Rattle.std.specs.List.{All};
ghost use Rattle.rma_bytes.specs.Runs.{HasByte, IsInBounds};
ghost use Rattle.rma_layout.specs.Refusal.{lowest, is_between};
ghost use Rattle.rma_layout.specs.inside.Bytes.{span, bytes_of, IsAmong, IsBlockIn};

use crate::block::Block;
use crate::fault::LayoutError;
use rma_base::limits::SPACE;
use rma_bytes::Run;
use smallvec::SmallVec;
use std::alloc::Global;

/// Where a buffer lies.
#[derive(Clone, Copy, Debug, PartialEq, Eq)]
pub enum Space {
    /// At the addresses of the caller, which begin at 0.
    Local,
    /// At displacements from where a target's part begins.
    Target,
}

/// The end of the space of addresses.
const END: i128 = SPACE as i128;

impl Space {
    /// The least address.
    fn lowest(self) -> i128
        ensures { result ≡ lowest self }
    {
        match self {
            Space::Local => 0,
            Space::Target => -END,
        }
    }

    /// Whether what lies between two addresses lies in the space.
    pub(crate) fn has(self, start: i128, end: i128) -> bool
        ensures { result ≡ is_between self start end }
    {
        self.lowest() <= start && end <= END
    }

    /// Whether the bytes of a block lie in the space.
    fn has_block(self, block: &Block) -> bool
        ensures { IsTrue result ↔ IsBlockIn self block.now }
    {
        if block.len == 0 {
            return true;
        }
        let start = block.start.bytes();
        if start > END {
            return false;
        }
        self.has(start, start + i128::from(block.len))
    }

    /// Whether the bytes of all blocks lie in the space.
    pub(crate) fn has_all(self, blocks: &[Block]) -> bool
        ensures { IsTrue result ↔ All (IsBlockIn self) blocks.now }
    {
        'each: for block in blocks {
            if !self.has_block(block) {
                return false;
            }
        }
        true
    }

    /// A block of the space, which has a byte, as a run.
    fn run(self, block: &Block) -> Run
        requires inside { IsBlockIn self block.now }
        requires some { 0 < block.now.len }
        ensures start { result.start ≡ block.now.start }
        ensures len { result.len ≡ block.now.len }
        ensures bounds { IsInBounds result }
    {
        Run {
            start: block.start.bytes() as i64,
            len: block.len,
        }
    }

    /// Puts a block of the space after runs, unless it has no byte.
    fn push_run(self, runs: &mut SmallVec<Run, 4>, block: &Block) -> Result<(), LayoutError>
        requires { IsBlockIn self block.now }
        ensures bounds { OnOk result (All IsInBounds runs.old.items → All IsInBounds runs.new.items) }
        ensures bytes { OnOk result ((b : ℤ) → HasByte runs.new.items b ↔ (HasByte runs.old.items b ⊎ IsAmong (span block.now.start block.now.len) b)) }
        ensures memory { IfErr result (λ e. e ≡ LayoutError.Memory) }
    {
        if block.len == 0 {
            return Ok(());
        }
        match runs.push(self.run(block)) {
            Ok(()) => Ok(()),
            Err(_) => Err(LayoutError::Memory),
        }
    }

    /// Blocks of the space, as runs. Those without a byte are left out.
    pub(crate) fn runs(
        self,
        alloc: Global,
        blocks: &[Block],
    ) -> Result<SmallVec<Run, 4>, LayoutError>
        requires { All (IsBlockIn self) blocks.now }
        ensures bounds { IfOk result (λ runs. All IsInBounds runs.items) }
        ensures bytes { IfOk result (λ runs. (b : ℤ) → HasByte runs.items b ↔ IsAmong (bytes_of blocks.now) b) }
        ensures memory { IfErr result (λ e. e ≡ LayoutError.Memory) }
    {
        let mut runs = SmallVec::new(alloc);
        'each: for block in blocks {
            if let Err(error) = self.push_run(&mut runs, block) {
                return Err(error);
            }
        }
        Ok(runs)
    }
}
