//! The steps in which a datatype is written, by its constructor.
ghost use Rattle.std.specs.Prelude.{◌≡◌, ◌<◌, ◌*ℤ◌, [], ◌∷◌, map, length, IfOk, IfErr, slice_get, option_map, Some, pos};
ghost use Rattle.rma_typemap.specs.Constructors.{times};
ghost use Rattle.rma_type.specs.Table.{constructor_of};
ghost use Rattle.rma_layout.specs.inside.Steps.{a_row, rows, single_steps, member_steps, part_steps, steps_in, IsStructOf, IsStepOver, IsStepBefore};

use crate::distance::{Distance, copies, product};
use crate::fault::LayoutError;
use crate::subarray;
use rma_datatype::{Block, ByteBlock, Dimension, Make, Member, Order};
use rma_type::{TypeId, TypeTable};

/// Copies of an old datatype, each an extent after the one before it.
#[derive(Clone, Copy, Debug)]
pub(crate) struct Row {
    /// The old datatype.
    pub(crate) old: TypeId,
    /// The number of copies.
    pub(crate) count: u64,
    /// The displacement of the first copy.
    pub(crate) at: i128,
}

/// A step.
#[derive(Clone, Copy, Debug)]
pub(crate) enum Step {
    /// Copies of an old datatype.
    Copies(Row),
    /// All that the steps before it wrote, so many times more, each a stride after the one before it.
    Again { count: u64, stride: i128 },
}

/// The i-th of one step: copies of the old datatype from displacement 0 on.
fn one_row(i: usize, old: TypeId, count: u64) -> Option<Step>
    ensures value { result ≡ slice_get (a_row old count (pos 0) ∷ []) i }
    ensures over { IsStepOver old result }
{
    if i == 0 {
        Some(Step::Copies(Row { old, count, at: 0 }))
    } else {
        None
    }
}

/// The i-th of two steps: a block of so many copies, and blocks so often in all, a stride apart.
fn vector(i: usize, old: TypeId, count: u64, length: u64, stride: i128) -> Option<Step>
    ensures over { IsStepOver old result }
    ensures value { result ≡ slice_get (rows count old length stride) i }
{
    if i == 0 {
        one_row(i, old, if count == 0 { 0 } else { length })
    } else if i == 1 {
        Some(Step::Again {
            count: count.saturating_sub(1),
            stride,
        })
    } else {
        None
    }
}

/// The i-th block of `indexed`.
fn indexed(
    i: usize,
    blocks: &[Block],
    old: TypeId,
    extent: i128,
) -> Result<Option<Step>, LayoutError>
    ensures ok { IfOk result (λ step. step ≡ slice_get (map (λ b. a_row old (times b.length) (b.displacement *ℤ extent)) blocks.now) i) }
    ensures over { IfOk result (IsStepOver old) }
    ensures memory { IfErr result (λ e. e ≡ LayoutError.Memory) }
{
    if i >= blocks.len() {
        return Ok(None);
    }
    let block = blocks[i];
    Ok(Some(Step::Copies(Row {
        old,
        count: copies(block.length),
        at: product(i128::from(block.displacement), extent)?,
    })))
}

/// The i-th block of `hindexed`.
fn hindexed(i: usize, blocks: &[ByteBlock], old: TypeId) -> Option<Step>
    ensures over { IsStepOver old result }
    ensures value { result ≡ slice_get (map (λ b. a_row old (times b.length) b.displacement) blocks.now) i }
{
    if i >= blocks.len() {
        return None;
    }
    let block = blocks[i];
    Some(Step::Copies(Row {
        old,
        count: copies(block.length),
        at: i128::from(block.displacement),
    }))
}

/// The i-th block of `indexed_block`.
fn indexed_block(
    i: usize,
    length: i32,
    displacements: &[i32],
    old: TypeId,
    extent: i128,
) -> Result<Option<Step>, LayoutError>
    ensures ok { IfOk result (λ step. step ≡ slice_get (map (λ at. a_row old (times length) (at *ℤ extent)) displacements.now) i) }
    ensures over { IfOk result (IsStepOver old) }
    ensures memory { IfErr result (λ e. e ≡ LayoutError.Memory) }
{
    if i >= displacements.len() {
        return Ok(None);
    }
    Ok(Some(Step::Copies(Row {
        old,
        count: copies(length),
        at: product(i128::from(displacements[i]), extent)?,
    })))
}

/// The i-th member of `struct`.
fn member(types: &TypeTable, id: TypeId, members: &[Member], i: usize) -> Option<Step>
    requires within { id.0 < length types.now.origins }
    requires members { IsStructOf members.now (slice_get types.now.origins id.0) }
    ensures before { IsStepBefore id.0 result }
    ensures value { result ≡ slice_get (steps_in types.now.origins id) i }
{
    if i >= members.len() {
        return None;
    }
    let member = &members[i];
    Some(Step::Copies(Row {
        old: types.old(id, i),
        count: copies(member.length),
        at: i128::from(member.displacement),
    }))
}

/// The i-th step of a part of an array.
fn part(
    i: usize,
    order: Order,
    dimensions: &[Dimension],
    old: TypeId,
    extent: i128,
) -> Result<Option<Step>, LayoutError>
    ensures ok { IfOk result (λ step. step ≡ slice_get (part_steps order dimensions.now old extent) i) }
    ensures over { IfOk result (IsStepOver old) }
    ensures memory { IfErr result (λ e. e ≡ LayoutError.Memory) }
{
    if i > dimensions.len() {
        return Ok(None);
    }
    if i == 0 {
        let at = subarray::start(order, dimensions, Distance::new(extent))?.bytes();
        let count = u64::from(subarray::has_part(dimensions));
        return Ok(Some(Step::Copies(Row { old, count, at })));
    }
    let dimension = subarray::nth_fastest(order, dimensions, i - 1);
    Ok(Some(Step::Again {
        count: copies(dimension.part).saturating_sub(1),
        stride: subarray::stride(order, dimensions, i - 1, Distance::new(extent))?.bytes(),
    }))
}

/// The i-th step of a constructor with one old datatype.
fn single(
    constructor: &Make,
    old: TypeId,
    extent: i128,
    i: usize,
) -> Result<Option<Step>, LayoutError>
    ensures ok { IfOk result (λ step. step ≡ slice_get (single_steps constructor.now old extent) i) }
    ensures over { IfOk result (IsStepOver old) }
    ensures memory { IfErr result (λ e. e ≡ LayoutError.Memory) }
{
    match constructor {
        Make::Contiguous { count, .. } => Ok(one_row(i, old, copies(*count))),
        Make::Vector {
            count,
            length,
            stride,
            ..
        } => {
            let stride = product(i128::from(*stride), extent)?;
            Ok(vector(i, old, copies(*count), copies(*length), stride))
        }
        Make::Hvector {
            count,
            length,
            stride,
            ..
        } => {
            let stride = i128::from(*stride);
            Ok(vector(i, old, copies(*count), copies(*length), stride))
        }
        Make::Indexed { blocks, .. } => indexed(i, blocks.as_slice(), old, extent),
        Make::Hindexed { blocks, .. } => Ok(hindexed(i, blocks.as_slice(), old)),
        Make::IndexedBlock {
            length,
            displacements,
            ..
        } => indexed_block(i, *length, displacements.as_slice(), old, extent),
        Make::Struct { .. } => Ok(None),
        Make::Resized { .. } => Ok(one_row(i, old, 1)),
        Make::Subarray {
            order,
            dimensions,
            ..
        } => part(i, *order, dimensions.as_slice(), old, extent),
    }
}

/// The i-th step of the constructor that made a datatype.
fn constructed(
    types: &TypeTable,
    id: TypeId,
    constructor: &Make,
    i: usize,
) -> Result<Option<Step>, LayoutError>
    requires within { id.0 < length types.now.origins }
    requires made { Some (Some constructor.now) ≡ option_map constructor_of (slice_get types.now.origins id.0) }
    ensures ok { IfOk result (λ step. step ≡ slice_get (steps_in types.now.origins id) i) }
    ensures before { IfOk result (IsStepBefore id.0) }
    ensures memory { IfErr result (λ e. e ≡ LayoutError.Memory) }
{
    match constructor {
        Make::Struct { members } => Ok(member(types, id, members.as_slice(), i)),
        _ => {
            let old = types.old(id, 0);
            single(constructor, old, i128::from(types.made(old).extent), i)
        }
    }
}

/// The i-th step in which a datatype is written, and nothing after the last one.
pub(crate) fn nth_step(types: &TypeTable, id: TypeId, i: usize) -> Result<Option<Step>, LayoutError>
    requires { id.0 < length types.now.origins }
    ensures ok { IfOk result (λ step. step ≡ slice_get (steps_in types.now.origins id) i) }
    ensures before { IfOk result (IsStepBefore id.0) }
    ensures memory { IfErr result (λ e. e ≡ LayoutError.Memory) }
{
    match types.made_by(id) {
        None => Ok(None),
        Some(constructor) => constructed(types, id, constructor, i),
    }
}
