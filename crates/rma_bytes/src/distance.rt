//! How far bytes are moved.
ghost use Rattle.std.specs.Prelude.{◌≡◌, ◌≤◌, pos, ◌-ℤ◌};
ghost use Rattle.rma_base.specs.Limits.{address_limit};
ghost use Rattle.rma_bytes.specs.inside.Distance.{IsFar};

use std::marker::Model;

/// How far bytes are moved: no further than from one end of the space of addresses to the other, up or down. Contracts see it as
/// the number.
#[derive(Clone, Copy, Debug)]
pub struct Distance {
    bytes: i64,
}

impl Model for Distance {
    ghost use Rattle.std.specs.Prelude.{ℤ};
    ghost use Rattle.rma_bytes.specs.inside.Distance.{IsFar};

    ghost Value = { ℤ };

    ghost view = { λ distance. distance.bytes };

    ghost inverse = { λ bytes. record { bytes = bytes } };

    ghost invariant = { λ distance. IsFar distance.bytes };
}

impl Distance {
    /// No distance at all.
    #[inline]
    pub fn zero() -> Distance
        ensures { result ≡ pos 0 }
    {
        Distance { bytes: 0 }
    }

    /// How far it is from one address to another.
    #[inline]
    pub fn between(from: u64, to: u64) -> Distance
        requires from { from ≤ address_limit }
        requires to { to ≤ address_limit }
        ensures { result ≡ pos to -ℤ pos from }
    {
        Distance {
            bytes: to as i64 - from as i64,
        }
    }

    /// The number of bytes.
    #[inline]
    pub fn bytes(self) -> i64
        ensures number { result ≡ self }
        ensures far { IsFar self }
    {
        self.bytes
    }
}
