//! The text of a line.
ghost use Rattle.std.specs.Prelude.{◌≡◌, true, false, nat_lt, length, MatchResult, Ok, Err};
ghost use Rattle.std.specs.List.{list_all};
ghost use Rattle.rma_lex.specs.Text.{is_text_byte, without_return, text_of};

use rma_base::FormReason;
use rma_base::limits::LINE;

/// The text of a line, of which all bytes before the line feed are given, and whether a line feed ends it; or why it is
/// bad. Where it is known to be clean, its bytes are not looked at.
#[inline]
pub(crate) fn text_of(line: &[u8], ended: bool, clean: bool) -> Result<&[u8], FormReason>
    requires { clean ≡ true → list_all is_text_byte line.now ≡ true }
    ensures { MatchResult result (λ text. text_of ended line.now ≡ Ok text.now) (λ reason. text_of ended line.now ≡ Err reason) }
{
    if line.len() > LINE {
        Err(FormReason::LineTooLong)
    } else if clean {
        Ok(line)
    } else {
        checked_text(line, ended)
    }
}

/// The text of a line that is not too long.
fn checked_text(line: &[u8], ended: bool) -> Result<&[u8], FormReason>
    requires { nat_lt LINE (length line.now) ≡ false }
    ensures { MatchResult result (λ text. text_of ended line.now ≡ Ok text.now) (λ reason. text_of ended line.now ≡ Err reason) }
{
    let text = if ended { without_return(line) } else { line };
    if all_text(text) {
        Ok(text)
    } else {
        Err(FormReason::BadByte)
    }
}

/// The line without a carriage return at its end.
fn without_return(line: &[u8]) -> &[u8]
    ensures { result.now ≡ without_return line.now }
{
    match line.split_last() {
        Some((last, rest)) if *last == b'\r' => rest,
        _ => line,
    }
}

/// Whether the bytes are all those of texts.
fn all_text(bytes: &[u8]) -> bool
    ensures { result ≡ list_all is_text_byte bytes.now }
{
    bytes.iter().all(|byte| is_text(*byte))
}

/// Whether the byte is one of texts.
pub(crate) fn is_text(byte: u8) -> bool
    ensures { result ≡ is_text_byte byte }
{
    byte == b'\t' || b' ' <= byte && byte <= b'~'
}
