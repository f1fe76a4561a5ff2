//! The numbers among the words.
ghost use Rattle.std.specs.Prelude.{◌≡◌, ◌==◌, slice_index};
ghost use Rattle.rma_command.specs.Words.{number_of};
ghost use Rattle.rma_command.specs.inside.Words.{ordinal};

/// The most digits of a number.
const DIGITS: usize = 10;

/// The number of 1 to 10 decimal digits.
pub(crate) fn number_of(word: &str) -> Option<u32>
    ensures { result ≡ number_of word.now }
{
    if has_plus(word.as_bytes()) || word.len() > DIGITS {
        return None;
    }
    word.parse::<u32>().ok()
}

/// The number of 1 to 10 decimal digits, where it is at least 1.
pub(crate) fn ordinal_of(word: &str) -> Option<u32>
    ensures { result ≡ ordinal (number_of word.now) }
{
    match number_of(word) {
        Some(number) if number >= 1 => Some(number),
        _ => None,
    }
}

/// Whether a plus stands first.
fn has_plus(text: &[u8]) -> bool
    ensures { result ≡ (slice_index text.now 0 == 43) }
{
    match text {
        [] => false,
        [first, ..] => *first == b'+',
    }
}
