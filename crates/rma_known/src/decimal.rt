//! Decimal numbers at the front of a text.
ghost use Rattle.std.specs.Prelude.{◌≡◌, ◌≤◌, length, take};
ghost use Rattle.std.specs.Str.Parse.{AllDigits, digits_value};

/// So many digits write any number that an address may be.
const DIGITS: usize = 15;

/// The decimal digits at the front of a text.
#[derive(Clone, Copy)]
pub(crate) struct Decimal {
    /// The number that they write.
    pub(crate) number: u64,
    /// How many there are.
    pub(crate) len: usize,
}

/// The decimal digits at the front of a text, no more than `DIGITS` of them.
#[inline]
pub(crate) fn front_digits(text: &[u8]) -> Decimal
    ensures within { result.len ≤ length text.now }
    ensures digits { AllDigits 10 (take result.len text.now) }
    ensures number { result.number ≡ digits_value 10 (take result.len text.now) }
{
    let most = text.len().min(DIGITS);
    let mut number = 0;
    for i in 0..most {
        let byte = text[i];
        if !byte.is_ascii_digit() {
            return Decimal { number, len: i };
        }
        number = number * 10 + u64::from(byte - b'0');
    }
    Decimal { number, len: most }
}
