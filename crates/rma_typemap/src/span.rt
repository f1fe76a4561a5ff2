//! The least start and the greatest end of some intervals.
ghost use Rattle.std.specs.Prelude.{◌≡◌, ◌^◌};
ghost use Rattle.rma_typemap.specs.inside.Near.{IsNear, SpanIsNear};
ghost use Rattle.rma_typemap.specs.inside.Summary.{joined_span, moved_span, stretched_span};

/// The least and the greatest of some displacements.
#[derive(Clone, Copy, Debug)]
pub struct Span {
    /// The least, in bytes.
    pub low: i128,
    /// The greatest, in bytes.
    pub high: i128,
}

/// The span of two, where they are there.
pub(crate) fn joined(first: Option<Span>, second: Option<Span>) -> Option<Span>
    ensures { result ≡ joined_span first second }
{
    match (first, second) {
        (None, _) => second,
        (Some(_), None) => first,
        (Some(a), Some(b)) => Some(Span {
            low: a.low.min(b.low),
            high: a.high.max(b.high),
        }),
    }
}

/// The span, moved by a number of bytes.
pub(crate) fn moved(span: Option<Span>, by: i128) -> Option<Span>
    requires near { SpanIsNear (2 ^ 120) span }
    requires by_near { IsNear (2 ^ 120) by }
    ensures { result ≡ moved_span by span }
{
    match span {
        None => None,
        Some(a) => Some(Span {
            low: by + a.low,
            high: by + a.high,
        }),
    }
}

/// The span of this one and of it moved by a number of bytes, with all between.
pub(crate) fn stretched(span: Option<Span>, by: i128) -> Option<Span>
    requires near { SpanIsNear (2 ^ 120) span }
    requires by_near { IsNear (2 ^ 120) by }
    ensures { result ≡ stretched_span by span }
{
    match span {
        None => None,
        Some(a) => Some(Span {
            low: a.low + 0_i128.min(by),
            high: a.high + 0_i128.max(by),
        }),
    }
}
