//! The numbers by which texts are looked up.
ghost use Rattle.std.specs.Prelude.{◌+◌, ◌≤◌, ◌<◌, length};

/// What keys begin with: the first digits of π behind its point.
const SEED: u64 = 0x243f_6a88_85a3_08d3;

/// What mixes them: 2 to the 64th, divided by the golden ratio.
const MIXER: u64 = 0x9e37_79b9_7f4a_7c15;

/// How many bytes are one word.
const WORD: usize = 8;

/// A number that depends on the text alone. Two texts seldom have the same, unless they were made to; whoever looks a text
/// up by it compares the texts. Two words are mixed at a time, the last two of all with what they share with those before.
#[inline]
pub fn key_of(text: &[u8]) -> u64 {
    let len = text.len();
    if len < WORD {
        return mixed(SEED ^ short(text), MIXER ^ len as u64);
    }
    let mut key = SEED ^ len as u64;
    for pair in 0..(len - 1) / (2 * WORD) {
        key = mixed(
            key ^ word(text, 2 * WORD * pair),
            MIXER ^ word(text, 2 * WORD * pair + WORD),
        );
    }
    mixed(
        key ^ word(text, len.saturating_sub(2 * WORD)),
        MIXER ^ word(text, len - WORD),
    )
}

/// A number that most lines of one form and shape have in common, and few others: it depends on the letters at the front of
/// their words, and on those at the end where no digit is the last.
#[inline]
pub(crate) fn shape_of(words: &[u8]) -> u64 {
    let len = words.len();
    if len < WORD {
        return 0;
    }
    let front = word(words, 0);
    let back = word(words, len - WORD);
    let shape = if ends_with_digit(back) {
        letters(front)
    } else {
        letters(front) ^ letters(back).rotate_left(11)
    };
    shape.wrapping_mul(MIXER)
}

/// Whether the last of eight bytes is a digit.
#[inline]
fn ends_with_digit(word: u64) -> bool {
    let last = word >> 56;
    48 <= last && last <= 57
}

/// The letters among eight bytes, each where it stands, with zeros for all other bytes.
#[inline]
fn letters(word: u64) -> u64 {
    let marks = word >> 6 & 0x0101_0101_0101_0101;
    word & marks.wrapping_mul(0xff)
}

/// The halves of a product, put together.
#[inline]
fn mixed(a: u64, b: u64) -> u64 {
    let product = u128::from(a) * u128::from(b);
    (product & u128::from(u64::MAX)) as u64 ^ (product >> 64) as u64
}

/// The word at a position of a text.
#[inline]
fn word(text: &[u8], at: usize) -> u64
    requires { at + 8 ≤ length text.now }
{
    u64::from_le_bytes([
        text[at],
        text[at + 1],
        text[at + 2],
        text[at + 3],
        text[at + 4],
        text[at + 5],
        text[at + 6],
        text[at + 7],
    ])
}

/// A text that is shorter than a word, as one number.
#[inline]
fn short(text: &[u8]) -> u64
    requires { length text.now < 8 }
{
    let mut number = 0;
    for byte in text {
        number = number << 8 | u64::from(*byte);
    }
    number
}
