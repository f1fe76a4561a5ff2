//! Texts in which a backslash stands before what is hard to see.
ghost use Rattle.std.specs.Prelude.{◌<◌, IfOk};

use crate::failure::Failure;
use std::alloc::Global;

/// The bytes that a text stands for: `\n`, `\r` and `\t` are those of Rust, `\s` is a blank, and `\xHH` the byte of two hexadecimal
/// digits.
///
/// # Errors
///
/// `Row` where something else stands behind a backslash, and `Memory` where there is none left.
pub fn unescaped(alloc: Global, text: &str) -> Result<Vec<u8>, Failure> {
    let mut bytes = Vec::new(alloc);
    let mut parts = text.split('\\');
    if let Some(first) = parts.next() {
        bytes.extend_from_slice(first.as_bytes())?;
    }
    for part in parts {
        push_escape(&mut bytes, part.as_bytes())?;
    }
    Ok(bytes)
}

/// Appends what a text means that stands behind a backslash.
fn push_escape(bytes: &mut Vec<u8>, text: &[u8]) -> Result<(), Failure> {
    let Some((first, rest)) = text.split_first() else {
        return Err(Failure::Row);
    };
    if *first == b'x' {
        return push_hexadecimal(bytes, rest);
    }
    bytes.push(meant(*first)?)?;
    Ok(bytes.extend_from_slice(rest)?)
}

/// The byte that a letter behind a backslash means.
fn meant(letter: u8) -> Result<u8, Failure> {
    match letter {
        b'n' => Ok(b'\n'),
        b'r' => Ok(b'\r'),
        b't' => Ok(b'\t'),
        b's' => Ok(b' '),
        _ => Err(Failure::Row),
    }
}

/// Appends the byte of the first two digits of a text, and the rest of it.
fn push_hexadecimal(bytes: &mut Vec<u8>, text: &[u8]) -> Result<(), Failure> {
    if text.len() < 2 {
        return Err(Failure::Row);
    }
    let high = digit(text[0])?;
    let low = digit(text[1])?;
    bytes.push(16 * high + low)?;
    Ok(bytes.extend_from_slice(&text[2..])?)
}

/// The value of a hexadecimal digit.
fn digit(byte: u8) -> Result<u8, Failure>
    ensures { IfOk result (λ digit. digit < 16) }
{
    match byte {
        b'0'..=b'9' => Ok(byte - b'0'),
        b'a'..=b'f' => Ok(byte - b'a' + 10),
        _ => Err(Failure::Row),
    }
}
