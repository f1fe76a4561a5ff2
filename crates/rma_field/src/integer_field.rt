//! Fields that are numbers which may be below 0.
ghost use Rattle.std.specs.Prelude.{◌≡◌, ◌<◌, ℕ, min, true, false, IfOk};
ghost use Rattle.rma_field.specs.Integers.{IsBetween, integer_of, integer_within};
ghost use Rattle.rma_field.specs.Numbers.{signed};
ghost use Rattle.rma_field.specs.Steps.{Gives};

use crate::number::{CAP, Signed, number, refused};
use crate::parse_error::ParseError;
use rma_base::FormReason;

/// The field as a number from minus `low` to `high`.
pub fn integer(text: &[u8], low: u64, high: u64) -> Result<i64, ParseError>
    requires low { low < CAP }
    requires high { high < CAP }
    ensures gives { Gives result (integer_of low high text.now) }
    ensures range { IfOk result (IsBetween low high) }
{
    match number(text) {
        Some(number) => integer_within(number, low, high),
        None => Err(refused(FormReason::BadNumber)),
    }
}

/// The field as an `int` of C.
pub fn int(text: &[u8]) -> Result<i32, ParseError>
    ensures { Gives result (integer_of 2147483648 2147483647 text.now) }
{
    match integer(text, 2_147_483_648, 2_147_483_647) {
        Ok(number) => Ok(number as i32),
        Err(error) => Err(error),
    }
}

fn integer_within(number: Signed, low: u64, high: u64) -> Result<i64, ParseError>
    requires low { low < CAP }
    requires high { high < CAP }
    ensures gives { (m : ℕ) → number.magnitude ≡ min m CAP → Gives result (integer_within low high (signed number.negative m)) }
    ensures range { IfOk result (IsBetween low high) }
{
    if number.negative {
        below_zero(number.magnitude, low)
    } else {
        above_zero(number.magnitude, high)
    }
}

// The number of that magnitude which is not above 0.
fn below_zero(magnitude: u64, low: u64) -> Result<i64, ParseError>
    requires { low < CAP }
    ensures gives { (m high : ℕ) → magnitude ≡ min m CAP → Gives result (integer_within low high (signed true m)) }
    ensures range { (high : ℕ) → IfOk result (IsBetween low high) }
{
    if magnitude > low {
        return Err(refused(FormReason::OutOfRange));
    }
    Ok(-(magnitude as i64))
}

// The number of that magnitude which is not below 0.
fn above_zero(magnitude: u64, high: u64) -> Result<i64, ParseError>
    requires { high < CAP }
    ensures gives { (m low : ℕ) → magnitude ≡ min m CAP → Gives result (integer_within low high (signed false m)) }
    ensures range { (low : ℕ) → IfOk result (IsBetween low high) }
{
    if magnitude > high {
        return Err(refused(FormReason::OutOfRange));
    }
    Ok(magnitude as i64)
}
