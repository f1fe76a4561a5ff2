//! Bounds and extent of what has a summary.
ghost use Rattle.std.specs.Prelude.{◌≡◌, ◌^◌, ◌<◌, ◌≤◌, ◌+ℤ◌, ◌-ℤ◌, pos, ◌&&◌, ◌==◌};
ghost use Rattle.std.specs.Ordering.{int_eq};
ghost use Rattle.rma_base.specs.Limits.{element_limit, address_limit};
ghost use Rattle.rma_typemap.specs.inside.Near.{IsNear, IsNearby, IsSound};
ghost use Rattle.rma_typemap.specs.Bounds.{raised};
ghost use Rattle.rma_typemap.specs.inside.Summary.{lower_end, upper_end, extent_of, blocks_in, summary_is_in_space, span_is_in_space, blocks_fill, made_of_summary};

use crate::blocks::Blocks;
use crate::made::Made;
use crate::span::Span;
use crate::summary::Summary;
use rma_base::limits;

/// The end of the space of addresses.
const SPACE: i128 = limits::SPACE as i128;

/// The end, raised until its distance from `low` is a multiple of the alignment.
fn raise(low: i128, alignment: u64, end: i128) -> i128
    requires low_near { IsNear address_limit low }
    requires end_near { IsNear address_limit end }
    requires aligned { 0 < alignment }
    requires small { alignment ≤ 8 }
    ensures value { result ≡ raised low alignment end }
    ensures near { IsNear (2 ^ 49) result }
{
    end + (low - end).rem_euclid(i128::from(alignment))
}

/// The lower bound.
fn low_end(summary: &Summary) -> i128
    requires { IsNearby address_limit summary.now }
    ensures value { result ≡ lower_end summary.now }
    ensures near { IsNear address_limit result }
{
    match (summary.lower, summary.bytes) {
        (Some(mark), _) => mark.low,
        (None, Some(bytes)) => bytes.low,
        (None, None) => 0,
    }
}

/// The upper bound.
fn high_end(summary: &Summary) -> i128
    requires nearby { IsNearby address_limit summary.now }
    requires sound { IsSound summary.now }
    ensures value { result ≡ upper_end summary.now }
    ensures near { IsNear (2 ^ 49) result }
{
    match (summary.upper, summary.bytes) {
        (Some(mark), _) => mark.high,
        (None, Some(bytes)) => raise(low_end(summary), summary.alignment, bytes.high),
        (None, None) => 0,
    }
}

/// The distance of one copy from the next.
pub(crate) fn extent(summary: &Summary) -> i128
    requires nearby { IsNearby address_limit summary.now }
    requires sound { IsSound summary.now }
    ensures value { result ≡ extent_of summary.now }
    ensures near { IsNear (2 ^ 50) result }
{
    high_end(summary) - low_end(summary)
}

/// The number of blocks.
fn block_count(blocks: Option<Blocks>) -> u64
    requires { blocks_in blocks < 2 ^ 64 }
    ensures { result ≡ blocks_in blocks }
{
    match blocks {
        None => 0,
        Some(blocks) => blocks.gaps + 1,
    }
}

/// Whether a span lies in the space of addresses.
fn span_in_space(span: Option<Span>) -> bool
    ensures { result ≡ span_is_in_space span }
{
    match span {
        None => true,
        Some(span) => -SPACE <= span.low && span.high <= SPACE,
    }
}

/// Whether the elements form one block from `low` to `high`.
fn fills(summary: &Summary, low: i128, high: i128) -> bool
    ensures { result ≡ blocks_fill low high summary.now.blocks }
{
    match summary.blocks {
        None => false,
        Some(blocks) => blocks.first == low && blocks.last == high,
    }
}

/// Whether the elements form one block from `low` to `high`, and this distance is the size.
fn solid(summary: &Summary, low: i128, high: i128) -> bool
    requires low_near { IsNear (2 ^ 49) low }
    requires high_near { IsNear (2 ^ 49) high }
    requires few { blocks_in summary.now.blocks < 2 ^ 64 }
    ensures { result ≡ ((blocks_in summary.now.blocks == 1) && blocks_fill low high summary.now.blocks && int_eq (high -ℤ low) (pos summary.now.size)) }
{
    block_count(summary.blocks) == 1
        && fills(summary, low, high)
        && high - low == i128::from(summary.size)
}

impl Summary {
    /// Whether all bytes and markers lie in the space of addresses.
    pub fn is_in_space(&self) -> bool
        ensures { result ≡ summary_is_in_space self.now }
    {
        span_in_space(self.bytes) && span_in_space(self.lower) && span_in_space(self.upper)
    }

    /// What is known of a datatype.
    pub fn made(&self) -> Made
        requires nearby { IsNearby address_limit self.now }
        requires sound { IsSound self.now }
        requires few { self.now.entries ≤ element_limit }
        ensures { result ≡ made_of_summary self.now }
    {
        let low = low_end(self);
        let high = high_end(self);
        Made {
            size: self.size,
            lb: low as i64,
            ub: high as i64,
            extent: (high - low) as i64,
            entries: self.entries,
            blocks: block_count(self.blocks),
            solid: solid(self, low, high),
        }
    }
}
