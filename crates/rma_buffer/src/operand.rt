//! The buffers of a line, with their datatypes.
ghost use Rattle.std.specs.Prelude.{◌≡◌, ◌<◌, length, min, option_map, IfSome, Some, None};
ghost use Rattle.rma_base.specs.Limits.{address_limit};
ghost use Rattle.rma_type.specs.Names.{id_of};
ghost use Rattle.rma_buffer.specs.Operands.{AreOf, IsOf, kind_of, operand_at, operand_of, operands_in, operands_of, element_at, target_of};

use rma_base::Name;
use rma_base::limits::SPACE;
use rma_call::RmaKind;
use rma_form::{Access, Buffer, Transfer};
use rma_type::{TypeId, TypeTable};

/// A buffer with its datatype.
#[derive(Clone, Copy, Debug, PartialEq, Eq)]
pub struct Operand {
    /// The datatype of its elements.
    pub datatype: TypeId,
    /// How many elements of the datatype it has.
    pub count: u32,
    /// Its address, at most the end of the space.
    pub address: u64,
}

/// The buffers of a call.
#[derive(Clone, Copy, Debug, PartialEq, Eq)]
pub struct Operands {
    /// At the target; addresses count from where the access starts.
    pub target: Operand,
    /// The buffer that the caller sends, or into which it gets.
    pub origin: Operand,
    /// The buffer of the result.
    pub result: Option<Operand>,
    /// The buffer with which the target is compared.
    pub compare: Option<Operand>,
}

impl Operand {
    /// The buffer, where the name of its datatype is live.
    pub fn of(types: &TypeTable, buffer: &Buffer) -> Option<Operand>
        ensures is { result ≡ operand_of types.now.live buffer.now }
        ensures within { IfSome result (IsOf (length types.now.origins)) }
    {
        operand_at(types, buffer.address, buffer.count, &buffer.datatype)
    }

    /// The same elements at another address.
    fn at(self, address: u64) -> Operand
        ensures { result ≡ record self { address = min address address_limit } }
    {
        Operand {
            address: address.min(SPACE),
            ..self
        }
    }
}

impl Operands {
    /// The buffers of a call, where the names of their datatypes are live.
    pub fn of(types: &TypeTable, access: &Access) -> Option<Operands>
        ensures is { result ≡ operands_of types.now.live access.now }
        ensures within { IfSome result (AreOf (length types.now.origins)) }
    {
        match access {
            Access::Put(transfer) | Access::Get(transfer) | Access::Accumulate { transfer, .. } => {
                moving(types, transfer)
            }
            Access::GetAccumulate {
                transfer,
                result,
                ..
            } => fetching(types, transfer, result),
            Access::FetchAndOp {
                datatype,
                origin,
                result,
                ..
            } => single(types, datatype, *origin, *result, None),
            Access::CompareAndSwap {
                datatype,
                origin,
                compare,
                result,
            } => single(types, datatype, *origin, *result, Some(*compare)),
        }
    }
}

/// What a call does.
pub(crate) fn kind_of(access: &Access) -> RmaKind
    ensures { result ≡ kind_of access.now }
{
    match access {
        Access::Put(_) => RmaKind::Put,
        Access::Get(_) => RmaKind::Get,
        Access::Accumulate { operation, .. } => RmaKind::Accumulate(*operation),
        Access::GetAccumulate { operation, .. } => RmaKind::GetAccumulate(*operation),
        Access::FetchAndOp { operation, .. } => RmaKind::FetchAndOp(*operation),
        Access::CompareAndSwap { .. } => RmaKind::CompareAndSwap,
    }
}

/// The buffer of these elements, where the name of their datatype is live.
fn operand_at(types: &TypeTable, address: u64, count: u32, datatype: &Name) -> Option<Operand>
    ensures is { result ≡ operand_at types.now.live address count datatype.now }
    ensures within { IfSome result (IsOf (length types.now.origins)) }
{
    match types.find(datatype) {
        Some(id) => Some(Operand {
            datatype: id,
            count,
            address: address.min(SPACE),
        }),
        None => None,
    }
}

/// The datatype of a live name, where that of another name is known. Mostly all buffers of a call have one name.
fn find_beside(types: &TypeTable, name: &Name, other: &Name, known: TypeId) -> Option<TypeId>
    requires other { id_of types.now.live other.now ≡ Some known }
    requires within { known.0 < length types.now.origins }
    ensures is { result ≡ id_of types.now.live name.now }
    ensures within { IfSome result (λ id. id.0 < length types.now.origins) }
{
    if name == other {
        Some(known)
    } else {
        types.find(name)
    }
}

/// A buffer of a transfer, where the name of its datatype is live, and that at the target is known.
fn operand_beside(
    types: &TypeTable,
    buffer: &Buffer,
    transfer: &Transfer,
    target: &Operand,
) -> Option<Operand>
    requires target { id_of types.now.live transfer.now.target_type ≡ Some target.now.datatype }
    requires within { target.now.datatype.0 < length types.now.origins }
    ensures is { result ≡ operand_of types.now.live buffer.now }
    ensures within { IfSome result (IsOf (length types.now.origins)) }
{
    match find_beside(
        types,
        &buffer.datatype,
        &transfer.target_type,
        target.datatype,
    ) {
        Some(datatype) => Some(Operand {
            datatype,
            count: buffer.count,
            address: buffer.address.min(SPACE),
        }),
        None => None,
    }
}

/// The buffers of a call that moves elements one way.
fn moving(types: &TypeTable, transfer: &Transfer) -> Option<Operands>
    ensures is { result ≡ operands_in types.now.live (record { target = target_of transfer.now; origin = transfer.now.origin; result = None; compare = None }) }
    ensures within { IfSome result (AreOf (length types.now.origins)) }
{
    let target = operand_at(types, 0, transfer.target_count, &transfer.target_type)?;
    let origin = operand_beside(types, &transfer.origin, transfer, &target)?;
    Some(Operands {
        target,
        origin,
        result: None,
        compare: None,
    })
}

/// The buffers of a call that moves elements both ways.
fn fetching(types: &TypeTable, transfer: &Transfer, into: &Buffer) -> Option<Operands>
    ensures is { result ≡ operands_in types.now.live (record { target = target_of transfer.now; origin = transfer.now.origin; result = Some into.now; compare = None }) }
    ensures within { IfSome result (AreOf (length types.now.origins)) }
{
    let target = operand_at(types, 0, transfer.target_count, &transfer.target_type)?;
    let origin = operand_beside(types, &transfer.origin, transfer, &target)?;
    let result = operand_beside(types, into, transfer, &target)?;
    Some(Operands {
        target,
        origin,
        result: Some(result),
        compare: None,
    })
}

/// The buffers of a call on one element.
fn single(
    types: &TypeTable,
    datatype: &Name,
    origin: u64,
    into: u64,
    compare: Option<u64>,
) -> Option<Operands>
    ensures is { result ≡ operands_in types.now.live (record {
      target = element_at 0 datatype.now;
      origin = element_at origin datatype.now;
      result = Some (element_at into datatype.now);
      compare = option_map (λ at. element_at at datatype.now) compare;
    }) }
    ensures within { IfSome result (AreOf (length types.now.origins)) }
{
    let element = operand_at(types, 0, 1, datatype)?;
    Some(Operands {
        target: element,
        origin: element.at(origin),
        result: Some(element.at(into)),
        compare: match compare {
            Some(address) => Some(element.at(address)),
            None => None,
        },
    })
}
