//! Bits of a mask.
ghost use Rattle.std.specs.Prelude.{◌≡◌, ◌≢◌, ℕ, ◌<◌, IfSome, None};
ghost use Rattle.rma_lex.specs.inside.Mask.{IsLowestBit, IsHighestBit, DropsBit};

/// The lowest bit that is set.
#[inline]
pub(crate) fn lowest(mask: u64) -> usize
    requires { mask ≢ 0 }
    ensures bound { result < 64 }
    ensures lowest { IsLowestBit mask result }
{
    mask.trailing_zeros() as usize
}

/// The mask without its lowest bit.
#[inline]
pub(crate) fn without_lowest(mask: u64) -> u64
    requires { mask ≢ 0 }
    ensures { (low : ℕ) → IsLowestBit mask low → DropsBit mask low result }
{
    mask & (mask - 1)
}

/// The highest bit that is set, if one is.
#[inline]
pub(crate) fn highest(mask: u64) -> Option<usize>
    ensures bound { IfSome result (λ bit. bit < 64) }
    ensures highest { IfSome result (λ bit. IsHighestBit mask bit) }
    ensures none { result ≡ None → mask ≡ 0 }
{
    if mask == 0 {
        None
    } else {
        Some(63 - mask.leading_zeros() as usize)
    }
}
