//! The basic datatypes of a table.
ghost use Rattle.std.specs.Prelude.{◌≡◌, IfOk};
ghost use Rattle.rma_datatype.specs.Basic.{basic_word};

use rma_base::{Memory, Name, NameError};
use rma_datatype::Basic;
use std::alloc::Global;

/// The basic datatypes, in the order of their numbers in every table.
pub(crate) const BASICS: [Basic; 26] = [
    Basic::SignedChar,
    Basic::UnsignedChar,
    Basic::Short,
    Basic::UnsignedShort,
    Basic::Int,
    Basic::Unsigned,
    Basic::Long,
    Basic::UnsignedLong,
    Basic::LongLong,
    Basic::UnsignedLongLong,
    Basic::Int8,
    Basic::Int16,
    Basic::Int32,
    Basic::Int64,
    Basic::Uint8,
    Basic::Uint16,
    Basic::Uint32,
    Basic::Uint64,
    Basic::Aint,
    Basic::Offset,
    Basic::Count,
    Basic::Float,
    Basic::Double,
    Basic::CBool,
    Basic::Byte,
    Basic::Char,
];

/// The name that a basic datatype has in every table.
pub(crate) fn name_of(alloc: Global, basic: Basic) -> Result<Name, Memory>
    ensures { IfOk result (λ name. name ≡ basic_word basic) }
{
    match Name::new(alloc, basic.word().as_bytes()) {
        Ok(name) => Ok(name),
        Err(NameError::Memory) => Err(Memory),
        Err(NameError::Bad) => unreachable!(),
    }
}
