//! Between which addresses bytes lie.
ghost use Rattle.std.specs.Prelude.{◌≤◌, ◌<◌, ◌^◌, ◌≤ℤ◌, ◌+◌, ℕ, pos};
ghost use Rattle.rma_rules.specs.Share.{LiesIn};
ghost use Rattle.rma_dyn.specs.Region.{region};

use rma_rules::Bytes;

/// Addresses of some bytes: a region that holds them all begins at the first or before, and ends at the second or behind it.
pub(crate) fn bounds_of(bytes: &Bytes<'_>) -> (u64, u64)
    ensures { (address size : ℕ) → address < 2 ^ 64 → LiesIn bytes.now (region address size) → (address ≤ result.0) × (result.1 ≤ address + size) }
{
    if bytes.is_empty() {
        return (u64::MAX, 0);
    }
    let first = bytes.get(0);
    let last = bytes.get(bytes.len() - 1);
    let low = address_of(first.start);
    let high = address_of(last.start.saturating_add_unsigned(last.len));
    (low, high)
}

/// An address; 0 for what lies below all.
fn address_of(number: i64) -> u64
    ensures least { (n : ℕ) → pos n ≤ℤ number → n ≤ result }
    ensures most { (n : ℕ) → number ≤ℤ pos n → result ≤ n }
{
    if number < 0 { 0 } else { number as u64 }
}
