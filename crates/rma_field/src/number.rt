//! Fields that are numbers.
ghost use Rattle.std.specs.Prelude.{◌≡◌, ◌<◌, ◌≤◌, length, take, min, MatchOption, option_map, IfOk, IfSome, Some, None, pos, true, false, ℕ, ◌*◌, ◌+◌};
ghost use Rattle.std.specs.List.{list_all};
ghost use Rattle.std.specs.Char.{digit_value, is_digit};
ghost use Rattle.std.specs.Str.Parse.{digits_value, AllDigits};
ghost use Rattle.rma_field.specs.Numbers.{numeral, number, signed, natural, natural_within};
ghost use Rattle.rma_field.specs.Kinds.{meaning, rank, size};
ghost use Rattle.rma_field.specs.Steps.{Gives};

use crate::parse_error::{ParseError, ParseFault};
use rma_base::{FormReason, Rank, Version};

// Where magnitudes are cut off: above the range of every field.
pub(crate) const CAP: u64 = 576_460_752_303_423_488;

// So many decimal digits write a number below `CAP`.
const FEW: usize = 17;

// So many digits at the front of a number are read together.
const FRONT: usize = 8;

// Above every number that a field may be.
const NO_NUMBER: u64 = u64::MAX;

// A number, its magnitude cut off at `CAP`.
#[derive(Clone, Copy)]
pub(crate) struct Signed {
    pub(crate) negative: bool,
    pub(crate) magnitude: u64,
}

// The sign, the base and the digits of a text that should be a number.
#[derive(Clone, Copy)]
pub(crate) struct Parts<'a> {
    pub(crate) negative: bool,
    pub(crate) base: u32,
    pub(crate) digits: &'a [u8],
}

/// The field as a number from `low` to `high`.
#[inline(always)]
pub fn natural(text: &[u8], low: u64, high: u64) -> Result<u64, ParseError>
    requires { high < CAP }
    ensures gives { Gives result (natural low high text.now) }
    ensures range { IfOk result (λ n. n ≤ high) }
{
    let number = short_number(text);
    if number >= low && number <= high {
        return Ok(number);
    }
    any_natural(text, low, high)
}

// The same of any text.
#[cold]
#[inline(never)]
fn any_natural(text: &[u8], low: u64, high: u64) -> Result<u64, ParseError>
    requires { high < CAP }
    ensures gives { Gives result (natural low high text.now) }
    ensures range { IfOk result (λ n. n ≤ high) }
{
    match any_number(text) {
        Some(number) => natural_of(number, low, high),
        None => Err(refused(FormReason::BadNumber)),
    }
}

/// The field as a rank of a run.
#[inline]
pub fn rank_field(version: Version, text: &[u8]) -> Result<Rank, ParseError>
    ensures { Gives result (meaning version rank text.now) }
{
    match natural(text, 0, u64::from(version.ranks() - 1)) {
        Ok(number) => Ok(Rank(number as u32)),
        Err(error) => Err(error),
    }
}

/// The field as a number of ranks.
pub fn size_field(version: Version, text: &[u8]) -> Result<u32, ParseError>
    ensures { Gives result (meaning version size text.now) }
{
    match natural(text, 1, u64::from(version.ranks())) {
        Ok(number) => Ok(number as u32),
        Err(error) => Err(error),
    }
}

fn natural_of(number: Signed, low: u64, high: u64) -> Result<u64, ParseError>
    requires { high < CAP }
    ensures gives { (m : ℕ) → number.magnitude ≡ min m CAP → Gives result (natural_within low high (signed number.negative m)) }
    ensures range { IfOk result (λ n. n ≤ high) }
{
    if number.negative && number.magnitude > 0 {
        return Err(refused(FormReason::OutOfRange));
    }
    if number.magnitude < low || number.magnitude > high {
        return Err(refused(FormReason::OutOfRange));
    }
    Ok(number.magnitude)
}

/// The error of a bad line.
pub fn refused(reason: FormReason) -> ParseError
    ensures { result ≡ ParseError.Fault (record { reason = reason }) }
{
    ParseError::Fault(ParseFault { reason })
}

// The number that the text is.
#[inline]
pub(crate) fn number(text: &[u8]) -> Option<Signed>
    ensures { MatchOption result (number text.now ≡ None) (λ n. (m : ℕ) × (number text.now ≡ Some (signed n.negative m)) × (n.magnitude ≡ min m CAP)) }
{
    let magnitude = short_number(text);
    if magnitude < CAP {
        return Some(Signed {
            negative: false,
            magnitude,
        });
    }
    any_number(text)
}

// The number that the text is, where it is some decimal digits and no more than `FEW`, as nearly all numbers of a log are;
// else `NO_NUMBER`.
fn short_number(text: &[u8]) -> u64
    ensures { result < CAP → number text.now ≡ Some (pos result) }
{
    if text.is_empty() || text.len() > FEW {
        return NO_NUMBER;
    }
    if text.len() < FRONT {
        return with_rest(0, text, 0);
    }
    let front = &text[..FRONT];
    if !are_decimal(front) {
        return NO_NUMBER;
    }
    with_rest(decimal(front), text, FRONT)
}

// The number that the text is, of which the digits before a place write the number `before`; or `NO_NUMBER`, where a byte
// behind them is no digit.
#[inline]
fn with_rest(before: u64, text: &[u8], place: usize) -> u64
    requires few { length text.now ≤ FEW }
    requires place { place ≤ length text.now }
    requires before { before ≡ digits_value 10 (take place text.now) }
    requires digits { AllDigits 10 (take place text.now) }
    ensures { result < CAP → AllDigits 10 text.now × (result ≡ digits_value 10 text.now) }
{
    let mut value = before;
    for byte in &text[place..] {
        if !byte.is_ascii_digit() {
            return NO_NUMBER;
        }
        value = value * 10 + u64::from(*byte - b'0');
    }
    value
}

// Whether each byte is a decimal digit. It looks at all of them in any case, so that it can look at some at once.
#[inline(always)]
fn are_decimal(text: &[u8]) -> bool
    ensures { result ≡ true → AllDigits 10 text.now }
{
    let mut all = true;
    for byte in text {
        all &= byte.is_ascii_digit();
    }
    all
}

// The number that decimal digits write.
#[inline(always)]
fn decimal(text: &[u8]) -> u64
    requires few { length text.now ≤ FEW }
    requires digits { AllDigits 10 text.now }
    ensures { result ≡ digits_value 10 text.now }
{
    let mut value = 0;
    for byte in text {
        value = value * 10 + u64::from(*byte - b'0');
    }
    value
}

// The number that the text is, whatever it is.
#[inline(never)]
fn any_number(text: &[u8]) -> Option<Signed>
    ensures { MatchOption result (number text.now ≡ None) (λ n. (m : ℕ) × (number text.now ≡ Some (signed n.negative m)) × (n.magnitude ≡ min m CAP)) }
{
    let parts = split_number(text);
    match numeral(parts.base, parts.digits) {
        Some(magnitude) => Some(Signed {
            negative: parts.negative,
            magnitude,
        }),
        None => None,
    }
}

// The parts of a text that should be a number.
pub(crate) fn split_number(text: &[u8]) -> Parts<'_>
    ensures value { number text.now ≡ option_map (signed result.negative) (numeral result.base result.digits.now) }
    ensures low { 10 ≤ result.base }
    ensures high { result.base ≤ 16 }
{
    let negative = text.starts_with(b"-");
    let rest = if negative { &text[1..] } else { text };
    if rest.starts_with(b"0x") {
        Parts {
            negative,
            base: 16,
            digits: &rest[2..],
        }
    } else {
        Parts {
            negative,
            base: 10,
            digits: rest,
        }
    }
}

fn numeral(base: u32, text: &[u8]) -> Option<u64>
    requires low { 0 < base }
    requires high { base ≤ 16 }
    ensures { MatchOption result (numeral base text.now ≡ None) (λ n. (m : ℕ) × (numeral base text.now ≡ Some m) × (n ≡ min m CAP)) }
{
    if !text.is_empty() && all_digits(base, text) {
        Some(capped_value(base, text))
    } else {
        None
    }
}

fn all_digits(base: u32, text: &[u8]) -> bool
    ensures { result ≡ list_all (λ c. is_digit c base) text.now }
{
    text.iter().all(|byte| digit(*byte) < base)
}

fn capped_value(base: u32, text: &[u8]) -> u64
    requires low { 0 < base }
    requires high { base ≤ 16 }
    ensures { result ≡ min (digits_value base text.now) CAP }
{
    let mut value = 0u64;
    for byte in text {
        value = with_digit(value, base, digit(*byte));
    }
    value
}

fn with_digit(value: u64, base: u32, digit: u32) -> u64
    requires capped { value ≤ CAP }
    requires high { base ≤ 16 }
    requires digit { digit ≤ 36 }
    ensures { result ≡ min (value * base + digit) CAP }
{
    (value * u64::from(base) + u64::from(digit)).min(CAP)
}

pub(crate) fn digit(byte: u8) -> u32
    ensures value { result ≡ digit_value byte }
    ensures bound { result ≤ 36 }
{
    match byte {
        b'0'..=b'9' => u32::from(byte - b'0'),
        b'A'..=b'Z' => u32::from(byte - b'A') + 10,
        b'a'..=b'z' => u32::from(byte - b'a') + 10,
        _ => 36,
    }
}
