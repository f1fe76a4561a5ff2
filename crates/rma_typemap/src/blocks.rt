//! Elements in order, by how many do not start where the one before them ends.
ghost use Rattle.std.specs.Prelude.{◌≡◌, ◌^◌, ◌+◌, ◌*◌, ◌<◌, ◌≤◌, pos, ◌*ℤ◌, Some};
ghost use Rattle.rma_typemap.specs.inside.Near.{IsNear, BlocksAreNear, BlocksAreFew};
ghost use Rattle.rma_typemap.specs.Typemap.{gap};
ghost use Rattle.rma_typemap.specs.inside.Summary.{joined_blocks, moved_blocks, repeated_blocks};

/// The elements in order: where the first starts, where the last ends, and how many of the others do not start where the
/// one before them ends.
#[derive(Clone, Copy, Debug)]
pub struct Blocks {
    /// The number of elements, after the first, that do not start where the one before them ends.
    pub gaps: u64,
    /// Where the first element starts.
    pub first: i128,
    /// Where the last element ends.
    pub last: i128,
}

/// 1 where what starts at `start` does not start at `end`, and else 0.
fn gap_between(end: i128, start: i128) -> u64
    ensures value { result ≡ gap end start }
    ensures small { result ≤ 1 }
{
    if start == end { 0 } else { 1 }
}

/// Blocks after others, of which the first has fewer gaps than `m` and the second fewer than `n`.
pub(crate) fn joined(
    first: Option<Blocks>,
    second: Option<Blocks>,
    m: u64,
    n: u64,
) -> Option<Blocks>
    requires first_short { BlocksAreFew m first }
    requires second_short { BlocksAreFew n second }
    requires few { m + n < 2 ^ 63 }
    ensures { result ≡ joined_blocks first second }
{
    match (first, second) {
        (None, _) => second,
        (Some(_), None) => first,
        (Some(a), Some(b)) => Some(Blocks {
            gaps: a.gaps + gap_between(a.last, b.first) + b.gaps,
            first: a.first,
            last: b.last,
        }),
    }
}

/// The blocks, moved by a number of bytes.
pub(crate) fn moved(blocks: Option<Blocks>, by: i128) -> Option<Blocks>
    requires near { BlocksAreNear (2 ^ 120) blocks }
    requires by_near { IsNear (2 ^ 120) by }
    ensures { result ≡ moved_blocks by blocks }
{
    match blocks {
        None => None,
        Some(a) => Some(Blocks {
            gaps: a.gaps,
            first: by + a.first,
            last: by + a.last,
        }),
    }
}

/// So many strides.
pub(crate) fn product(n: u64, stride: i128) -> i128
    requires { IsNear (2 ^ 120) (pos n *ℤ stride) }
    ensures { result ≡ pos n *ℤ stride }
{
    i128::from(n) * stride
}

/// The blocks of one with fewer gaps than `m`, and of `n` more of it, each a stride after the one before it.
pub(crate) fn repeated(blocks: Option<Blocks>, n: u64, stride: i128, m: u64) -> Option<Blocks>
    requires near { BlocksAreNear (2 ^ 120) blocks }
    requires stride_near { IsNear (2 ^ 120) stride }
    requires distance_near { IsNear (2 ^ 120) (pos n *ℤ stride) }
    requires short { BlocksAreFew m blocks }
    requires few { m + n * m < 2 ^ 63 }
    ensures { result ≡ repeated_blocks n stride blocks }
{
    match blocks {
        None => None,
        Some(a) => Some(Blocks {
            gaps: a.gaps + n * (a.gaps + gap_between(a.last, a.first + stride)),
            first: a.first,
            last: a.last + product(n, stride),
        }),
    }
}
