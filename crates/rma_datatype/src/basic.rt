//! The basic datatypes, with the sizes of LP64 (MPI 4.0, "Datatypes").
ghost use Rattle.std.specs.Prelude.{◌≡◌};
ghost use Rattle.rma_datatype.specs.Basic.{basic_size, basic_class, basic_word};

/// What a basic datatype holds: the classes by which the predefined operations are allowed (MPI 4.0,
/// "Collective Communication", the predefined reduction operations).
#[derive(Clone, Copy, Debug, PartialEq, Eq, PartialOrd, Ord, Hash)]
pub enum Class {
    /// A C integer.
    Integer,
    /// An integer of the interface itself: an address, an offset in a file, or a count.
    MultiLanguage,
    /// A floating point number.
    Floating,
    /// A truth value.
    Logical,
    /// A byte without a meaning.
    Byte,
    /// A printable character.
    Character,
}

/// A basic datatype. Its alignment is its size.
#[derive(Clone, Copy, Debug, PartialEq, Eq, PartialOrd, Ord, Hash)]
pub enum Basic {
    /// `signed char`, as a number.
    SignedChar,
    /// `unsigned char`, as a number.
    UnsignedChar,
    /// `short`.
    Short,
    /// `unsigned short`.
    UnsignedShort,
    /// `int`.
    Int,
    /// `unsigned`.
    Unsigned,
    /// `long`.
    Long,
    /// `unsigned long`.
    UnsignedLong,
    /// `long long`.
    LongLong,
    /// `unsigned long long`.
    UnsignedLongLong,
    /// `int8_t`.
    Int8,
    /// `int16_t`.
    Int16,
    /// `int32_t`.
    Int32,
    /// `int64_t`.
    Int64,
    /// `uint8_t`.
    Uint8,
    /// `uint16_t`.
    Uint16,
    /// `uint32_t`.
    Uint32,
    /// `uint64_t`.
    Uint64,
    /// An address or a distance in bytes.
    Aint,
    /// An offset in a file.
    Offset,
    /// A count of elements.
    Count,
    /// `float`.
    Float,
    /// `double`.
    Double,
    /// `_Bool`.
    CBool,
    /// Eight bits without a meaning.
    Byte,
    /// `char`, as a printable character.
    Char,
}

impl Basic {
    /// The number of bytes of a value.
    pub fn size(&self) -> u64
        ensures { result ≡ basic_size self.now }
    {
        match self {
            Basic::SignedChar
            | Basic::UnsignedChar
            | Basic::Int8
            | Basic::Uint8
            | Basic::CBool
            | Basic::Byte
            | Basic::Char => 1,
            Basic::Short | Basic::UnsignedShort | Basic::Int16 | Basic::Uint16 => 2,
            Basic::Int | Basic::Unsigned | Basic::Int32 | Basic::Uint32 | Basic::Float => 4,
            Basic::Long
            | Basic::UnsignedLong
            | Basic::LongLong
            | Basic::UnsignedLongLong
            | Basic::Int64
            | Basic::Uint64
            | Basic::Aint
            | Basic::Offset
            | Basic::Count
            | Basic::Double => 8,
        }
    }

    /// What a value is.
    pub fn class(&self) -> Class
        ensures { result ≡ basic_class self.now }
    {
        match self {
            Basic::SignedChar
            | Basic::UnsignedChar
            | Basic::Short
            | Basic::UnsignedShort
            | Basic::Int
            | Basic::Unsigned
            | Basic::Long
            | Basic::UnsignedLong
            | Basic::LongLong
            | Basic::UnsignedLongLong
            | Basic::Int8
            | Basic::Int16
            | Basic::Int32
            | Basic::Int64
            | Basic::Uint8
            | Basic::Uint16
            | Basic::Uint32
            | Basic::Uint64 => Class::Integer,
            Basic::Aint | Basic::Offset | Basic::Count => Class::MultiLanguage,
            Basic::Float | Basic::Double => Class::Floating,
            Basic::CBool => Class::Logical,
            Basic::Byte => Class::Byte,
            Basic::Char => Class::Character,
        }
    }

    /// The word that the log has for this datatype, which is also its name in every table of types.
    pub fn word(&self) -> &'static str
        ensures { result.now ≡ basic_word self.now }
    {
        match self {
            Basic::SignedChar => "SIGNED_CHAR",
            Basic::UnsignedChar => "UNSIGNED_CHAR",
            Basic::Short => "SHORT",
            Basic::UnsignedShort => "UNSIGNED_SHORT",
            Basic::Int => "INT",
            Basic::Unsigned => "UNSIGNED",
            Basic::Long => "LONG",
            Basic::UnsignedLong => "UNSIGNED_LONG",
            Basic::LongLong => "LONG_LONG",
            Basic::UnsignedLongLong => "UNSIGNED_LONG_LONG",
            Basic::Int8 => "INT8_T",
            Basic::Int16 => "INT16_T",
            Basic::Int32 => "INT32_T",
            Basic::Int64 => "INT64_T",
            Basic::Uint8 => "UINT8_T",
            Basic::Uint16 => "UINT16_T",
            Basic::Uint32 => "UINT32_T",
            Basic::Uint64 => "UINT64_T",
            Basic::Aint => "AINT",
            Basic::Offset => "OFFSET",
            Basic::Count => "COUNT",
            Basic::Float => "FLOAT",
            Basic::Double => "DOUBLE",
            Basic::CBool => "C_BOOL",
            Basic::Byte => "BYTE",
            Basic::Char => "CHAR",
        }
    }
}
