//! Distances in bytes, in 128 bits. No datatype of a table has one that does not fit.
ghost use Rattle.std.specs.Prelude.{◌≡◌, pos, ◌+ℤ◌, ◌-ℤ◌, ◌*ℤ◌, ◌*◌, IfOk, IfErr};
ghost use Rattle.std.specs.Ordering.{int_eq};
ghost use Rattle.rma_typemap.specs.Constructors.{times};

use crate::fault::LayoutError;
use std::marker::Model;

/// A distance in bytes, which contracts see as the number.
#[derive(Clone, Copy, Debug, Default)]
pub(crate) struct Distance {
    bytes: i128,
}

impl Model for Distance {
    ghost use Rattle.std.specs.Prelude.{ℤ};

    ghost Value = { ℤ };

    ghost view = { λ d. d.bytes };

    ghost inverse = { λ d. record { bytes = d } };
}

impl Distance {
    /// So many bytes.
    pub(crate) fn new(bytes: i128) -> Distance
        ensures { result ≡ bytes }
    {
        Distance { bytes }
    }

    /// The number of bytes.
    pub(crate) fn bytes(self) -> i128
        ensures { result ≡ self }
    {
        self.bytes
    }

    /// One distance after another.
    pub(crate) fn plus(self, other: Distance) -> Result<Distance, LayoutError>
        ensures ok { IfOk result (λ d. d ≡ self +ℤ other) }
        ensures memory { IfErr result (λ e. e ≡ LayoutError.Memory) }
    {
        match self.bytes.checked_add(other.bytes) {
            Some(bytes) => Ok(Distance { bytes }),
            None => Err(LayoutError::Memory),
        }
    }

    /// The distance so many times.
    pub(crate) fn times(self, n: i32) -> Result<Distance, LayoutError>
        ensures ok { IfOk result (λ d. d ≡ n *ℤ self) }
        ensures memory { IfErr result (λ e. e ≡ LayoutError.Memory) }
    {
        match i128::from(n).checked_mul(self.bytes) {
            Some(bytes) => Ok(Distance { bytes }),
            None => Err(LayoutError::Memory),
        }
    }

    /// Whether two distances are equal.
    pub(crate) fn is(self, other: Distance) -> bool
        ensures { result ≡ int_eq self other }
    {
        self.bytes == other.bytes
    }
}

/// The length of bytes side by side.
pub(crate) fn length(n: u64) -> Distance
    ensures { result ≡ pos n }
{
    Distance::new(i128::from(n))
}

/// The sum of two numbers of bytes.
pub(crate) fn sum(a: i128, b: i128) -> Result<i128, LayoutError>
    ensures ok { IfOk result (λ c. c ≡ a +ℤ b) }
    ensures memory { IfErr result (λ e. e ≡ LayoutError.Memory) }
{
    match a.checked_add(b) {
        Some(c) => Ok(c),
        None => Err(LayoutError::Memory),
    }
}

/// The difference of two numbers of bytes.
pub(crate) fn difference(a: i128, b: i128) -> Result<i128, LayoutError>
    ensures ok { IfOk result (λ c. c ≡ a -ℤ b) }
    ensures memory { IfErr result (λ e. e ≡ LayoutError.Memory) }
{
    match a.checked_sub(b) {
        Some(c) => Ok(c),
        None => Err(LayoutError::Memory),
    }
}

/// So many strides.
pub(crate) fn product(n: i128, stride: i128) -> Result<i128, LayoutError>
    ensures ok { IfOk result (λ c. c ≡ n *ℤ stride) }
    ensures memory { IfErr result (λ e. e ≡ LayoutError.Memory) }
{
    match n.checked_mul(stride) {
        Some(c) => Ok(c),
        None => Err(LayoutError::Memory),
    }
}

/// The bytes of so many copies.
pub(crate) fn all_bytes(count: u64, size: u64) -> Result<u64, LayoutError>
    ensures ok { IfOk result (λ c. c ≡ count * size) }
    ensures memory { IfErr result (λ e. e ≡ LayoutError.Memory) }
{
    match count.checked_mul(size) {
        Some(c) => Ok(c),
        None => Err(LayoutError::Memory),
    }
}

/// The number of copies that a count says, and none where it is negative.
pub(crate) fn copies(count: i32) -> u64
    ensures { result ≡ times count }
{
    if count < 0 { 0 } else { count as u64 }
}
