//! The last blank of a line.
ghost use Rattle.std.specs.Prelude.{◌≡◌, ◌+◌, ◌-◌, ◌<◌, length, drop, slice_index, IfSome, None, true};
ghost use Rattle.std.specs.List.{list_all};
ghost use Rattle.rma_lex.specs.Field.{is_blank, is_field};
ghost use Rattle.rma_lex.specs.inside.Blank.{blank_at};
ghost use Rattle.rma_lex.specs.inside.Mask.{Marks};

use crate::blank::{blanks_of_block, blanks_within_short_line};
use crate::mask::highest;
use memchr::memrchr2;

/// Where the last blank of the line stands, if it has one.
#[inline]
pub fn last_blank(line: &[u8]) -> Option<usize>
    ensures within { IfSome result (λ place. place < length line.now) }
    ensures blank { IfSome result (λ place. is_blank (slice_index line.now place) ≡ true) }
    ensures behind { IfSome result (λ place. list_all is_field (drop (place + 1) line.now) ≡ true) }
    ensures none { result ≡ None → list_all is_field line.now ≡ true }
{
    let from = line.len().saturating_sub(64);
    match highest(blanks_from(line, from)) {
        Some(bit) => Some(from + bit),
        None if from == 0 => None,
        None => searched(line),
    }
}

/// The blanks of the last 64 bytes of the line, or of all, from this index on: bit k is for index `from + k`.
#[inline]
fn blanks_from(line: &[u8], from: usize) -> u64
    requires { from ≡ length line.now - 64 }
    ensures { Marks (blank_at line.now) from result from (length line.now) }
{
    if line.len() < 64 {
        blanks_within_short_line(line)
    } else {
        blanks_of_block(line, from)
    }
}

/// The last blank, where it may stand before the last 64 bytes.
#[inline(never)]
fn searched(line: &[u8]) -> Option<usize>
    ensures within { IfSome result (λ place. place < length line.now) }
    ensures blank { IfSome result (λ place. is_blank (slice_index line.now place) ≡ true) }
    ensures behind { IfSome result (λ place. list_all is_field (drop (place + 1) line.now) ≡ true) }
    ensures none { result ≡ None → list_all is_field line.now ≡ true }
{
    match memrchr2(b' ', b'\t', line) {
        Some(place) => Some(place),
        None => None,
    }
}
