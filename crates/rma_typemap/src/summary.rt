//! The summary of a typemap: what is asked of its elements and markers, in a few numbers.
ghost use Rattle.std.specs.Prelude.{◌≡◌, ◌^◌, ◌+◌, ◌*◌, ◌<◌, ◌≤◌, pos, ◌*ℤ◌, [], ◌∷◌};
ghost use Rattle.rma_base.specs.Limits.{element_limit};
ghost use Rattle.rma_typemap.specs.inside.Near.{IsNear, IsNearby, IsSound};
ghost use Rattle.rma_typemap.specs.inside.Summary.{joined, displaced, with_more, repeated, empty_summary, marked, summary};
ghost use Rattle.rma_typemap.specs.Typemap as typemap;

use crate::blocks::Blocks;
use crate::span::Span;
use crate::{blocks, span};
use rma_datatype::Basic;

/// The summary of a typemap, which may have as many elements as a datatype may have.
#[derive(Clone, Copy, Debug)]
pub struct Summary {
    /// The number of elements.
    pub entries: u64,
    /// The bytes of all elements together.
    pub size: u64,
    /// The greatest alignment of an element, and 0 without elements.
    pub alignment: u64,
    /// The least start and the greatest end of the elements.
    pub bytes: Option<Span>,
    /// The least and the greatest marker of the lower bound.
    pub lower: Option<Span>,
    /// The least and the greatest marker of the upper bound.
    pub upper: Option<Span>,
    /// The elements in order, as blocks.
    pub blocks: Option<Blocks>,
}

impl Summary {
    /// The summary of nothing.
    pub fn empty() -> Self
        ensures { result ≡ empty_summary }
    {
        Summary {
            entries: 0,
            size: 0,
            alignment: 0,
            bytes: None,
            lower: None,
            upper: None,
            blocks: None,
        }
    }

    /// The summary of one element of a basic datatype.
    pub fn single(basic: Basic) -> Self
        ensures { result ≡ summary (typemap.element basic (pos 0) ∷ []) }
    {
        let size = basic.size();
        let end = i128::from(size);
        Summary {
            entries: 1,
            size,
            alignment: size,
            bytes: Some(Span { low: 0, high: end }),
            lower: None,
            upper: None,
            blocks: Some(Blocks {
                gaps: 0,
                first: 0,
                last: end,
            }),
        }
    }
}

/// One typemap after another.
pub(crate) fn join(first: &Summary, second: &Summary) -> Summary
    requires first_sound { IsSound first.now }
    requires second_sound { IsSound second.now }
    requires few { first.now.entries + second.now.entries ≤ element_limit }
    ensures { result ≡ joined first.now second.now }
{
    Summary {
        entries: first.entries + second.entries,
        size: first.size + second.size,
        alignment: first.alignment.max(second.alignment),
        bytes: span::joined(first.bytes, second.bytes),
        lower: span::joined(first.lower, second.lower),
        upper: span::joined(first.upper, second.upper),
        blocks: blocks::joined(first.blocks, second.blocks, first.entries, second.entries),
    }
}

/// A typemap, moved by a number of bytes.
pub(crate) fn displace(summary: &Summary, by: i128) -> Summary
    requires near { IsNearby (2 ^ 120) summary.now }
    requires by_near { IsNear (2 ^ 120) by }
    ensures { result ≡ displaced by summary.now }
{
    Summary {
        entries: summary.entries,
        size: summary.size,
        alignment: summary.alignment,
        bytes: span::moved(summary.bytes, by),
        lower: span::moved(summary.lower, by),
        upper: span::moved(summary.upper, by),
        blocks: blocks::moved(summary.blocks, by),
    }
}

/// A typemap and `n` more copies of it, each a stride after the one before it.
fn extended(summary: &Summary, n: u64, stride: i128) -> Summary
    requires near { IsNearby (2 ^ 120) summary.now }
    requires stride_near { IsNear (2 ^ 120) stride }
    requires distance_near { IsNear (2 ^ 120) (pos n *ℤ stride) }
    requires sound { IsSound summary.now }
    requires few { summary.now.entries + n * summary.now.entries ≤ element_limit }
    ensures { result ≡ with_more n stride summary.now }
{
    let distance = blocks::product(n, stride);
    Summary {
        entries: summary.entries + n * summary.entries,
        size: summary.size + n * summary.size,
        alignment: summary.alignment,
        bytes: span::stretched(summary.bytes, distance),
        lower: span::stretched(summary.lower, distance),
        upper: span::stretched(summary.upper, distance),
        blocks: blocks::repeated(summary.blocks, n, stride, summary.entries),
    }
}

/// `count` copies of a typemap, the first where it is and each a stride after the one before it.
pub(crate) fn repeat(summary: &Summary, count: u64, stride: i128) -> Summary
    requires near { IsNearby (2 ^ 120) summary.now }
    requires stride_near { IsNear (2 ^ 120) stride }
    requires distance_near { IsNear (2 ^ 120) (pos count *ℤ stride) }
    requires sound { IsSound summary.now }
    requires few { count * summary.now.entries ≤ element_limit }
    ensures { result ≡ repeated count stride summary.now }
{
    if count == 0 {
        Summary::empty()
    } else {
        extended(summary, count - 1, stride)
    }
}

/// A typemap with one marker of each bound in place of its own.
pub(crate) fn mark(summary: &Summary, low: i128, high: i128) -> Summary
    ensures { result ≡ marked low high summary.now }
{
    Summary {
        lower: Some(Span { low, high: low }),
        upper: Some(Span { low: high, high }),
        ..*summary
    }
}
