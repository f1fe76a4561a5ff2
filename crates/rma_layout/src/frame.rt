//! One datatype that is being written, as one of several nested in one another.
ghost use Rattle.std.specs.Prelude.{◌≡◌, ◌+◌, ◌<◌, ◌≤◌, ℤ, List, length, take, drop, slice_get, None, Some, true, IfOk, IfErr, IfSome};
ghost use Rattle.rma_typemap.specs.Bounds.{extent};
ghost use Rattle.rma_type.specs.declared.origin.Origin.{Origin};
ghost use Rattle.rma_type.specs.Table.{typemaps, typemap_in, is_derived};
ghost use Rattle.rma_layout.specs.inside.Bytes.{span, bytes_of, moved, typemap_bytes};
ghost use Rattle.rma_layout.specs.inside.Output.{IsSound};
ghost use Rattle.rma_layout.specs.inside.Frames.{IsFrame, IsTurn, IsFault, IsBefore, IsRowOf};
ghost use Rattle.rma_layout.specs.inside.Steps.{steps_in};

use crate::block::{Block, shifted};
use crate::distance::{Distance, difference, sum};
use crate::fault::LayoutError;
use crate::output::Output;
use crate::step::{Row, Step, nth_step};
use rma_type::{TypeId, TypeTable};

/// Blocks that stand in the output: the bytes of a datatype.
#[derive(Clone, Copy, Debug)]
pub(crate) struct Known {
    /// The datatype.
    pub(crate) id: TypeId,
    /// Its displacement.
    pub(crate) by: i128,
    /// The first block.
    pub(crate) from: usize,
    /// The number of blocks up to the last one.
    pub(crate) to: usize,
}

/// A datatype that is being written.
#[derive(Clone, Copy, Debug)]
pub(crate) struct Frame {
    /// The datatype.
    pub(crate) id: TypeId,
    /// Its displacement.
    pub(crate) by: i128,
    /// Where its blocks begin.
    pub(crate) from: usize,
    /// The next step.
    pub(crate) next: usize,
    /// What is left of the step before it, displaced as the datatype is.
    pub(crate) row: Row,
    /// The old datatype that was written last.
    pub(crate) known: Option<Known>,
}

/// What comes next.
#[derive(Clone, Copy, Debug)]
pub(crate) enum Turn {
    /// The datatype goes on.
    On(Frame),
    /// Before it goes on, an old datatype is written.
    Into { outer: Frame, inner: Frame },
    /// The datatype is written.
    Done,
}

/// The bytes of a datatype, where its elements in order form one block.
pub(crate) fn one_block(types: &TypeTable, id: TypeId) -> Option<Block>
    requires { id.0 < length types.now.origins }
    ensures some { IfSome result (λ block. span block.start block.len ≡ typemap_bytes (typemap_in (typemaps types.now.origins) id)) }
    ensures none { result ≡ None → is_derived (slice_get types.now.origins id.0) ≡ true }
{
    match types.blocks(id) {
        Some(blocks) if blocks.gaps == 0 => Some(Block {
            start: Distance::new(blocks.first),
            len: types.made(id).size,
        }),
        _ => None,
    }
}

impl Frame {
    /// A datatype of which nothing is written.
    pub(crate) fn new(id: TypeId, by: i128, from: usize) -> Frame
        ensures id { result.id ≡ id }
        ensures by { result.by ≡ by }
        ensures from { result.from ≡ from }
        ensures next { result.next ≡ 0 }
        ensures old { result.row.old ≡ id }
        ensures count { result.row.count ≡ 0 }
        ensures known { result.known ≡ None }
    {
        Frame {
            id,
            by,
            from,
            next: 0,
            row: Row {
                old: id,
                count: 0,
                at: 0,
            },
            known: None,
        }
    }

    /// The datatype, with another row to be written and the step after it.
    fn with_row(self, row: Row, next: usize) -> Frame
        ensures id { result.id ≡ self.id }
        ensures by { result.by ≡ self.by }
        ensures from { result.from ≡ self.from }
        ensures known { result.known ≡ self.known }
        ensures old { result.row.old ≡ row.old }
        ensures count { result.row.count ≡ row.count }
        ensures at { result.row.at ≡ row.at }
        ensures next { result.next ≡ next }
    {
        Frame { row, next, ..self }
    }

    /// The datatype, with nothing left of the step.
    fn past_row(self) -> Frame
        ensures id { result.id ≡ self.id }
        ensures by { result.by ≡ self.by }
        ensures from { result.from ≡ self.from }
        ensures known { result.known ≡ self.known }
        ensures next { result.next ≡ self.next }
        ensures old { result.row.old ≡ self.row.old }
        ensures count { result.row.count ≡ 0 }
    {
        let row = Row {
            count: 0,
            ..self.row
        };
        self.with_row(row, self.next)
    }

    /// The next step.
    fn next_step(self, types: &TypeTable, output: &mut Output) -> Result<Turn, LayoutError>
        requires sound { IsSound output.old }
        requires frame { IsFrame types.now.origins output.old.blocks.items self }
        requires empty { self.row.count ≡ 0 }
        ensures ok { IfOk result (IsTurn types.now.origins output.old output.new self) }
        ensures fault { IfErr result (IsFault types.now.origins output.old self) }
    {
        let Some(next) = self.next.checked_add(1) else {
            return Err(LayoutError::Memory);
        };
        match nth_step(types, self.id, self.next)? {
            None => Ok(Turn::Done),
            Some(Step::Copies(row)) => self.begin_row(types, output, row, next),
            Some(Step::Again { count, stride }) => self.again(output, count, stride, next),
        }
    }

    /// The next step, where it is a row.
    fn begin_row(
        self,
        types: &TypeTable,
        output: &Output,
        row: Row,
        next: usize,
    ) -> Result<Turn, LayoutError>
        requires sound { IsSound output.now }
        requires empty { self.row.count ≡ 0 }
        requires step { slice_get (steps_in types.now.origins self.id) self.next ≡ Some (Step.Copies row) }
        requires next { next ≡ self.next + 1 }
        requires within { row.old.0 < length types.now.origins }
        ensures ok { IfOk result (IsTurn types.now.origins output.now output.now self) }
        ensures memory { IfErr result (λ e. e ≡ LayoutError.Memory) }
    {
        let at = sum(self.by, row.at)?;
        let begun = self.with_row(Row { at, ..row }, next);
        Ok(Turn::On(begun))
    }

    /// The next step, where it repeats what is written.
    fn again(
        self,
        output: &mut Output,
        count: u64,
        stride: i128,
        next: usize,
    ) -> Result<Turn, LayoutError>
        requires sound { IsSound output.old }
        requires within { self.from ≤ length output.old.blocks.items }
        requires empty { self.row.count ≡ 0 }
        requires next { next ≡ self.next + 1 }
        ensures ok { (origins : List Origin) → self.row.old.0 < length origins → slice_get (steps_in origins self.id) self.next ≡ Some (Step.Again count stride) → IfOk result (IsTurn origins output.old output.new self) }
        ensures fault { (origins : List Origin) → slice_get (steps_in origins self.id) self.next ≡ Some (Step.Again count stride) → IfErr result (IsFault origins output.old self) }
    {
        let after = self.with_row(self.row, next);
        match output.again(self.from, count, Distance::new(stride)) {
            Ok(()) => Ok(Turn::On(after)),
            Err(error) => Err(error),
        }
    }

    /// The copies of an old datatype that is not written yet: the first is to be written, the others later.
    fn first_copy(
        self,
        types: &TypeTable,
        output: &Output,
        distance: i128,
    ) -> Result<Turn, LayoutError>
        requires within { self.row.old.0 < length types.now.origins }
        requires derived { is_derived (slice_get types.now.origins self.row.old.0) ≡ true }
        requires some { 0 < self.row.count }
        requires distance { distance ≡ extent (typemap_in (typemaps types.now.origins) self.row.old) }
        ensures ok { IfOk result (IsTurn types.now.origins output.now output.now self) }
        ensures memory { IfErr result (λ e. e ≡ LayoutError.Memory) }
    {
        let Some(_) = types.made_by(self.row.old) else {
            unreachable!();
        };
        let row = Row {
            old: self.row.old,
            count: self.row.count - 1,
            at: sum(self.row.at, distance)?,
        };
        let outer = self.with_row(row, self.next);
        let inner = Frame::new(self.row.old, self.row.at, output.blocks.len());
        Ok(Turn::Into { outer, inner })
    }

    /// The copies of an old datatype that is one block.
    fn copies_of_block(
        self,
        output: &mut Output,
        block: Block,
        extent: i128,
    ) -> Result<Turn, LayoutError>
        requires sound { IsSound output.old }
        ensures ok { (origins : List Origin) → IsRowOf origins self.row extent (span block.start block.len) → IfOk result (IsTurn origins output.old output.new self) }
        ensures fault { (origins : List Origin) → IsRowOf origins self.row extent (span block.start block.len) → IfErr result (IsFault origins output.old self) }
    {
        let after = self.past_row();
        let first = shifted(block, Distance::new(self.row.at))?;
        match output.push_copies(first, self.row.count, Distance::new(extent)) {
            Ok(()) => Ok(Turn::On(after)),
            Err(error) => Err(error),
        }
    }

    /// The copies of an old datatype that is written already.
    fn copies_of_known(
        self,
        output: &mut Output,
        known: Known,
        extent: i128,
    ) -> Result<Turn, LayoutError>
        requires sound { IsSound output.old }
        requires order { known.from ≤ known.to }
        requires within { known.to ≤ output.old.floor }
        ensures ok { (origins : List Origin) (bytes : List ℤ) → IsRowOf origins self.row extent bytes → bytes_of (drop known.from (take known.to output.old.blocks.items)) ≡ moved known.by bytes → IfOk result (IsTurn origins output.old output.new self) }
        ensures fault { (origins : List Origin) (bytes : List ℤ) → IsRowOf origins self.row extent bytes → bytes_of (drop known.from (take known.to output.old.blocks.items)) ≡ moved known.by bytes → IfErr result (IsFault origins output.old self) }
    {
        let after = self.past_row();
        let at = Distance::new(difference(self.row.at, known.by)?);
        match output.copy_rows(
            known.from,
            known.to,
            at,
            self.row.count,
            Distance::new(extent),
        ) {
            Ok(()) => Ok(Turn::On(after)),
            Err(error) => Err(error),
        }
    }

    /// What is left of the step.
    fn rest_of_row(self, types: &TypeTable, output: &mut Output) -> Result<Turn, LayoutError>
        requires sound { IsSound output.old }
        requires frame { IsFrame types.now.origins output.old.blocks.items self }
        requires before { IsBefore output.old.floor self.known }
        requires some { 0 < self.row.count }
        ensures ok { IfOk result (IsTurn types.now.origins output.old output.new self) }
        ensures fault { IfErr result (IsFault types.now.origins output.old self) }
    {
        let old = self.row.old;
        let extent = i128::from(types.made(old).extent);
        if let Some(block) = one_block(types, old) {
            return self.copies_of_block(output, block, extent);
        }
        match self.known {
            Some(known) if known.id == old => self.copies_of_known(output, known, extent),
            _ => self.first_copy(types, output, extent),
        }
    }

    /// Writes some of the datatype.
    pub(crate) fn go_on(self, types: &TypeTable, output: &mut Output) -> Result<Turn, LayoutError>
        requires sound { IsSound output.old }
        requires frame { IsFrame types.now.origins output.old.blocks.items self }
        requires before { IsBefore output.old.floor self.known }
        ensures ok { IfOk result (IsTurn types.now.origins output.old output.new self) }
        ensures fault { IfErr result (IsFault types.now.origins output.old self) }
    {
        if self.row.count == 0 {
            return self.next_step(types, output);
        }
        if types.made(self.row.old).entries == 0 {
            return Ok(Turn::On(self.past_row()));
        }
        self.rest_of_row(types, output)
    }
}
