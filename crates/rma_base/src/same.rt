//! Whether two texts are the same.
ghost use Rattle.std.specs.Prelude.{◌≡◌, ◌+◌, ◌<◌, ◌≤◌, nat_eq, length};
ghost use Rattle.std.specs.Bool.{Decides};
ghost use Rattle.std.specs.Cmp.Lexicographic.{pointwise};
ghost use Rattle.std.specs.Simd.Lanes.{chunk};

use std::simd::prelude::*;

/// Whether two texts are the same. Texts of 4 to 32 bytes, as most names and sites are, are compared by their ends, which overlap: that
/// takes few steps, and as many for one length as for another.
#[inline]
pub fn is_same(own: &[u8], other: &[u8]) -> bool
    ensures { result ≡ pointwise nat_eq own.now other.now }
{
    let len = own.len();
    if len != other.len() {
        false
    } else if len < 4 || 32 < len {
        own == other
    } else if len < 8 {
        have_same_ends::<4>(own, other)
    } else if len < 16 {
        have_same_ends::<8>(own, other)
    } else {
        have_same_ends::<16>(own, other)
    }
}

/// Whether texts are the same that are covered by their first bytes and their last ones, so many of each.
#[inline]
fn have_same_ends<const N: usize>(own: &[u8], other: &[u8]) -> bool
    requires few { (0 < N) × (N ≤ 64) }
    requires length { length own.now ≡ length other.now }
    requires covered { (N ≤ length own.now) × (length own.now ≤ N + N) }
    ensures { result ≡ pointwise nat_eq own.now other.now }
{
    let last = own.len() - N;
    agree_from::<N>(own, other, 0) & agree_from::<N>(own, other, last)
}

/// Whether so many bytes from one place on are the same in two texts.
#[inline]
fn agree_from<const N: usize>(own: &[u8], other: &[u8], from: usize) -> bool
    requires few { (0 < N) × (N ≤ 64) }
    requires own { from + N ≤ length own.now }
    requires other { from + N ≤ length other.now }
    ensures { Decides result (chunk from N own.now ≡ chunk from N other.now) }
{
    let own = Simd::<u8, N>::from_slice(&own[from..]);
    let other = Simd::<u8, N>::from_slice(&other[from..]);
    own.simd_ne(other).to_bitmask() == 0
}
