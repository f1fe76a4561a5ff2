//! Fields that are one of some words.
ghost use Rattle.std.specs.Prelude.{◌≡◌, find};
ghost use Rattle.rma_field.specs.Kinds.{version_of, model_of, operations_of, operation_of, lock_of, order_of, is_word, lock_word, order_word, all_operations};
ghost use Rattle.rma_field.specs.Steps.{Gives};
ghost use Rattle.rma_datatype.specs.Operation.{op_word};

use crate::number::refused;
use crate::parse_error::ParseError;
use rma_base::{AccOps, FormReason, Version, WinModel};
use rma_call::LockKind;
use rma_datatype::{Op, Order};

// Each operation once.
const OPERATIONS: [Op; 12] = [
    Op::Max,
    Op::Min,
    Op::Sum,
    Op::Prod,
    Op::Land,
    Op::Lor,
    Op::Lxor,
    Op::Band,
    Op::Bor,
    Op::Bxor,
    Op::Replace,
    Op::NoOp,
];

/// The field as a version of the format.
pub fn version_field(text: &[u8]) -> Result<Version, ParseError>
    ensures { Gives result (version_of text.now) }
{
    if is_word(text, b"1") {
        Ok(Version::One)
    } else if is_word(text, b"2") {
        Ok(Version::Two)
    } else {
        Err(refused(FormReason::BadWord))
    }
}

/// The field as a memory model.
pub fn model_field(text: &[u8]) -> Result<WinModel, ParseError>
    ensures { Gives result (model_of text.now) }
{
    if is_word(text, b"separate") {
        Ok(WinModel::Separate)
    } else if is_word(text, b"unified") {
        Ok(WinModel::Unified)
    } else {
        Err(refused(FormReason::BadWord))
    }
}

/// The field as what accumulate operations may meet.
pub fn operations_field(text: &[u8]) -> Result<AccOps, ParseError>
    ensures { Gives result (operations_of text.now) }
{
    if is_word(text, b"same_op") {
        Ok(AccOps::SameOp)
    } else if is_word(text, b"same_op_no_op") {
        Ok(AccOps::SameOpNoOp)
    } else {
        Err(refused(FormReason::BadWord))
    }
}

/// The field as an operation of an accumulate call.
pub fn operation_field(text: &[u8]) -> Result<Op, ParseError>
    ensures { Gives result (operation_of text.now) }
{
    match operation_with_word(text) {
        Some(op) => Ok(op),
        None => Err(refused(FormReason::BadWord)),
    }
}

// The operation of that word.
fn operation_with_word(text: &[u8]) -> Option<Op>
    ensures { result ≡ find (λ op. is_word (op_word op) text.now) all_operations }
{
    OPERATIONS
        .iter()
        .copied()
        .find(|op| is_word(text, op.word().as_bytes()))
}

/// The field as a kind of lock.
pub fn lock_field(text: &[u8]) -> Result<LockKind, ParseError>
    ensures { Gives result (lock_of text.now) }
{
    if is_word(text, b"excl") {
        Ok(LockKind::Exclusive)
    } else if is_word(text, b"shared") {
        Ok(LockKind::Shared)
    } else {
        Err(refused(FormReason::BadWord))
    }
}

/// The word of a kind of lock.
pub fn lock_word(kind: LockKind) -> &'static str
    ensures { result.now ≡ lock_word kind }
{
    match kind {
        LockKind::Exclusive => "excl",
        LockKind::Shared => "shared",
    }
}

/// The field as an order of the dimensions of an array.
pub fn order_field(text: &[u8]) -> Result<Order, ParseError>
    ensures { Gives result (order_of text.now) }
{
    if is_word(text, b"c") {
        Ok(Order::LastFastest)
    } else if is_word(text, b"fortran") {
        Ok(Order::FirstFastest)
    } else {
        Err(refused(FormReason::BadWord))
    }
}

/// The word of an order of the dimensions of an array.
pub fn order_word(order: Order) -> &'static str
    ensures { result.now ≡ order_word order }
{
    match order {
        Order::LastFastest => "c",
        Order::FirstFastest => "fortran",
    }
}

/// Whether the field is that word.
pub fn is_word(text: &[u8], word: &[u8]) -> bool
    ensures { result ≡ is_word word.now text.now }
{
    text == word
}
