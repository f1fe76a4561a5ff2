//! Datatypes nested in one another, written from a list of those that are begun.
ghost use Rattle.std.specs.Prelude.{◌≡◌, ◌<◌, ℤ, List, [], length, slice_get, true, Some, OnOk, IfOk, IfErr};
ghost use Rattle.rma_layout.specs.declared.output.Output.{Output};
ghost use Rattle.rma_typemap.specs.Bounds.{extent};
ghost use Rattle.rma_type.specs.Table.{typemaps, typemap_in, is_derived};
ghost use Rattle.rma_layout.specs.inside.Bytes.{copies, typemap_bytes};
ghost use Rattle.rma_layout.specs.inside.Output.{IsSound, Appends, Refuses};
ghost use Rattle.rma_layout.specs.inside.Frames.{bytes_at, IsFrame, IsBefore, IsExpanding, IsAfterTurn};

use crate::block::shifted;
use crate::distance::Distance;
use crate::fault::LayoutError;
use crate::frame::{Frame, Known, Turn, one_block};
use crate::output::Output;
use rma_type::{TypeId, TypeTable};

/// The outer datatype, after the inner one is written.
fn with_known(outer: Frame, inner: Frame, to: usize) -> Frame
    ensures id { result.id ≡ outer.id }
    ensures by { result.by ≡ outer.by }
    ensures from { result.from ≡ outer.from }
    ensures next { result.next ≡ outer.next }
    ensures row { result.row ≡ outer.row }
    ensures known { result.known ≡ Some (record { id = inner.id; by = inner.by; from = inner.from; to = to }) }
{
    Frame {
        known: Some(Known {
            id: inner.id,
            by: inner.by,
            from: inner.from,
            to,
        }),
        ..outer
    }
}

/// Goes on with the innermost of the datatypes that are begun. Nothing is left of them where there is no answer.
fn turn(
    types: &TypeTable,
    top: Frame,
    outer: &mut Vec<Frame>,
    output: &mut Output,
) -> Result<Option<Frame>, LayoutError>
    requires sound { IsSound output.old }
    requires frame { IsFrame types.now.origins output.old.blocks.items top }
    requires before { IsBefore output.old.floor top.known }
    ensures ok { (start : Output) (target : List ℤ) → IsExpanding types.now.origins start output.old target top outer.old.items → 0 < output.old.left → IfOk result (IsAfterTurn types.now.origins start output.new target outer.new.items) }
    ensures fault { (start : Output) (target : List ℤ) → IsExpanding types.now.origins start output.old target top outer.old.items → 0 < output.old.left → IfErr result (Refuses start target) }
{
    match top.go_on(types, output) {
        Ok(Turn::On(frame)) => Ok(Some(frame)),
        Ok(
            Turn::Into {
                outer: frame,
                inner,
            },
        ) => {
            output.seal();
            match outer.push(frame) {
                Ok(()) => Ok(Some(inner)),
                Err(_) => Err(LayoutError::Memory),
            }
        }
        Ok(Turn::Done) => {
            output.seal();
            match outer.pop() {
                Some(frame) => Ok(Some(with_known(frame, top, output.blocks.len()))),
                None => Ok(None),
            }
        }
        Err(error) => Err(error),
    }
}

/// Writes a datatype that is not one block, at a displacement.
fn expand(types: &TypeTable, id: TypeId, by: i128, output: &mut Output) -> Result<(), LayoutError>
    requires within { id.0 < length types.now.origins }
    requires derived { is_derived (slice_get types.now.origins id.0) ≡ true }
    requires sound { IsSound output.old }
    requires empty { output.old.blocks.items ≡ [] }
    ensures ok { OnOk result (Appends output.old output.new (bytes_at types.now.origins id by)) }
    ensures fault { IfErr result (Refuses output.old (bytes_at types.now.origins id by)) }
{
    let Some(_) = types.made_by(id) else {
        unreachable!();
    };
    let mut outer = Vec::new(*output.blocks.allocator());
    let mut top = Frame::new(id, by, 0);
    'turns: for _turn in 0..u64::MAX {
        if output.left == 0 {
            return Ok(());
        }
        match turn(types, top, &mut outer, output) {
            Ok(Some(frame)) => top = frame,
            Ok(None) => return Ok(()),
            Err(error) => return Err(error),
        }
    }
    Err(LayoutError::Memory)
}

/// Writes the first copy of a datatype.
fn first(types: &TypeTable, id: TypeId, by: i128, output: &mut Output) -> Result<(), LayoutError>
    requires within { id.0 < length types.now.origins }
    requires sound { IsSound output.old }
    requires empty { output.old.blocks.items ≡ [] }
    ensures ok { OnOk result (Appends output.old output.new (bytes_at types.now.origins id by)) }
    ensures fault { IfErr result (Refuses output.old (bytes_at types.now.origins id by)) }
{
    match one_block(types, id) {
        Some(block) => {
            let first = shifted(block, Distance::new(by))?;
            output.push(first)
        }
        None => expand(types, id, by, output),
    }
}

/// Writes copies of a datatype, the first at a displacement, and each an extent after the one before it.
pub(crate) fn write_copies(
    types: &TypeTable,
    id: TypeId,
    count: u32,
    by: i128,
    output: &mut Output,
) -> Result<(), LayoutError>
    requires within { id.0 < length types.now.origins }
    requires sound { IsSound output.old }
    requires empty { output.old.blocks.items ≡ [] }
    ensures ok { OnOk result (Appends output.old output.new (copies count by (extent (typemap_in (typemaps types.now.origins) id)) (typemap_bytes (typemap_in (typemaps types.now.origins) id)))) }
    ensures fault { IfErr result (Refuses output.old (copies count by (extent (typemap_in (typemaps types.now.origins) id)) (typemap_bytes (typemap_in (typemaps types.now.origins) id)))) }
{
    if count == 0 {
        return Ok(());
    }
    if let Err(error) = first(types, id, by, output) {
        return Err(error);
    }
    let extent = Distance::new(i128::from(types.made(id).extent));
    output.again(0, u64::from(count) - 1, extent)
}
