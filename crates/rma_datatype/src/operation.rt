//! The operations of the accumulate calls, and what each is allowed for (MPI 4.0, "One-Sided Communications").
ghost use Rattle.std.specs.Prelude.{◌≡◌};
ghost use Rattle.rma_datatype.specs.Basic.{basic_class};
ghost use Rattle.rma_datatype.specs.Operation.{op_word, op_allows, is_arithmetic, is_logical, is_bitwise, is_comparable};

use crate::basic::{Basic, Class};

/// An operation of an accumulate call.
#[derive(Clone, Copy, Debug, PartialEq, Eq, PartialOrd, Ord, Hash)]
pub enum Op {
    /// The greater of two.
    Max,
    /// The lesser of two.
    Min,
    /// The sum.
    Sum,
    /// The product.
    Prod,
    /// The logical and.
    Land,
    /// The logical or.
    Lor,
    /// The logical exclusive or.
    Lxor,
    /// The bitwise and.
    Band,
    /// The bitwise or.
    Bor,
    /// The bitwise exclusive or.
    Bxor,
    /// The operand of the origin.
    Replace,
    /// The value of the target. Calls that answer no value have no use for it.
    NoOp,
}

impl Op {
    /// The word that the log has for this operation.
    pub fn word(&self) -> &'static str
        ensures { result.now ≡ op_word self.now }
    {
        match self {
            Op::Max => "MAX",
            Op::Min => "MIN",
            Op::Sum => "SUM",
            Op::Prod => "PROD",
            Op::Land => "LAND",
            Op::Lor => "LOR",
            Op::Lxor => "LXOR",
            Op::Band => "BAND",
            Op::Bor => "BOR",
            Op::Bxor => "BXOR",
            Op::Replace => "REPLACE",
            Op::NoOp => "NO_OP",
        }
    }

    /// Whether the operation is allowed for elements of the basic datatype.
    pub fn allows(&self, basic: Basic) -> bool
        ensures { result ≡ op_allows self.now (basic_class basic) }
    {
        let class = basic.class();
        match self {
            Op::Max | Op::Min | Op::Sum | Op::Prod => holds_numbers(class),
            Op::Land | Op::Lor | Op::Lxor => holds_truths(class),
            Op::Band | Op::Bor | Op::Bxor => holds_bits(class),
            Op::Replace | Op::NoOp => true,
        }
    }
}

/// Whether elements of the basic datatype may be compared and swapped.
pub fn can_compare_and_swap(basic: Basic) -> bool
    ensures { result ≡ is_comparable (basic_class basic) }
{
    match basic.class() {
        Class::Integer | Class::MultiLanguage | Class::Logical | Class::Byte => true,
        Class::Floating | Class::Character => false,
    }
}

/// Whether values of the class can be added and ordered.
fn holds_numbers(class: Class) -> bool
    ensures { result ≡ is_arithmetic class }
{
    match class {
        Class::Integer | Class::MultiLanguage | Class::Floating => true,
        Class::Logical | Class::Byte | Class::Character => false,
    }
}

/// Whether values of the class can be taken for true or false.
fn holds_truths(class: Class) -> bool
    ensures { result ≡ is_logical class }
{
    match class {
        Class::Integer | Class::Logical => true,
        Class::MultiLanguage | Class::Floating | Class::Byte | Class::Character => false,
    }
}

/// Whether values of the class can be taken for their bits.
fn holds_bits(class: Class) -> bool
    ensures { result ≡ is_bitwise class }
{
    match class {
        Class::Integer | Class::MultiLanguage | Class::Byte => true,
        Class::Floating | Class::Logical | Class::Character => false,
    }
}
