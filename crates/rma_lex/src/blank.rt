//! The blanks of a line as the bits of a mask, found up to 64 bytes at a time.
ghost use Rattle.std.specs.Prelude.{◌≡◌, ◌+◌, ◌<◌, ◌≤◌, length};
ghost use Rattle.rma_lex.specs.inside.Blank.{blank_at};
ghost use Rattle.rma_lex.specs.inside.Mask.{Marks};
ghost use Rattle.rma_lex.specs.Field.{is_blank};

use std::simd::prelude::*;

/// Whether the byte is a space or a tab.
pub(crate) fn is_blank(byte: u8) -> bool
    ensures { result ≡ is_blank byte }
{
    byte == b' ' || byte == b'\t'
}

/// The blanks among the 64 bytes from an index on: bit k is for the byte at `from + k`.
#[inline]
pub(crate) fn blanks_of_block(line: &[u8], from: usize) -> u64
    requires { from + 64 ≤ length line.now }
    ensures { Marks (blank_at line.now) from result from (from + 64) }
{
    let bytes = u8x64::from_slice(&line[from..]);
    (bytes.simd_eq(u8x64::splat(b' ')) | bytes.simd_eq(u8x64::splat(b'\t'))).to_bitmask()
}

/// The blanks of a line of fewer than 64 bytes: bit k is for index k. Where the line has ended, all bits are set.
#[inline]
pub(crate) fn blanks_of_short_line(line: &[u8]) -> u64
    requires { length line.now < 64 }
    ensures { Marks (blank_at line.now) 0 result 0 64 }
{
    blanks_within_short_line(line) | u64::MAX << line.len()
}

/// The blanks of a line of fewer than 64 bytes, and no bit more: bit k is for index k.
#[inline]
pub(crate) fn blanks_within_short_line(line: &[u8]) -> u64
    requires { length line.now < 64 }
    ensures { Marks (blank_at line.now) 0 result 0 (length line.now) }
{
    if line.len() < 32 {
        return blanks_of_few(line);
    }
    blanks_of_32(line, 0) | blanks_of_32(line, line.len() - 32)
}

/// The blanks of a line of fewer than 32 bytes: bit k is for index k.
#[inline(never)]
fn blanks_of_few(line: &[u8]) -> u64
    requires { length line.now < 32 }
    ensures { Marks (blank_at line.now) 0 result 0 (length line.now) }
{
    if line.len() < 8 {
        blanks_one_by_one(line)
    } else if line.len() < 16 {
        blanks_of_8(line, 0) | blanks_of_8(line, line.len() - 8)
    } else {
        blanks_of_16(line, 0) | blanks_of_16(line, line.len() - 16)
    }
}

/// The blanks among the 32 bytes from an index on: bit k is for index k of the line.
#[inline]
fn blanks_of_32(line: &[u8], from: usize) -> u64
    requires within { from + 32 ≤ length line.now }
    requires low { from ≤ 32 }
    ensures { Marks (blank_at line.now) 0 result from (from + 32) }
{
    let bytes = u8x32::from_slice(&line[from..]);
    (bytes.simd_eq(u8x32::splat(b' ')) | bytes.simd_eq(u8x32::splat(b'\t'))).to_bitmask() << from
}

/// The blanks among the 16 bytes from an index on: bit k is for index k of the line.
#[inline]
fn blanks_of_16(line: &[u8], from: usize) -> u64
    requires within { from + 16 ≤ length line.now }
    requires low { from ≤ 32 }
    ensures { Marks (blank_at line.now) 0 result from (from + 16) }
{
    let bytes = u8x16::from_slice(&line[from..]);
    (bytes.simd_eq(u8x16::splat(b' ')) | bytes.simd_eq(u8x16::splat(b'\t'))).to_bitmask() << from
}

/// The blanks among the 8 bytes from an index on: bit k is for index k of the line.
#[inline]
fn blanks_of_8(line: &[u8], from: usize) -> u64
    requires within { from + 8 ≤ length line.now }
    requires low { from ≤ 32 }
    ensures { Marks (blank_at line.now) 0 result from (from + 8) }
{
    let bytes = u8x8::from_slice(&line[from..]);
    (bytes.simd_eq(u8x8::splat(b' ')) | bytes.simd_eq(u8x8::splat(b'\t'))).to_bitmask() << from
}

/// The blanks of a line of fewer than 64 bytes, looked at one by one: bit k is for index k.
fn blanks_one_by_one(line: &[u8]) -> u64
    requires { length line.now < 64 }
    ensures { Marks (blank_at line.now) 0 result 0 (length line.now) }
{
    let mut mask = 0;
    for (k, byte) in line.iter().enumerate() {
        if is_blank(*byte) {
            mask |= 1 << k;
        }
    }
    mask
}
