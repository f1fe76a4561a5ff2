//! The edges of a line: the positions where a field begins, and those before which one has ended.
ghost use Rattle.std.specs.Prelude.{◌≡◌, ℕ, ◌+◌, ◌%◌, ◌^◌, ◌<◌, ◌≤◌, length};
ghost use Rattle.std.specs.Int.{bit_at};
ghost use Rattle.rma_lex.specs.inside.Edge.{is_edge, IsNextEdge};
ghost use Rattle.rma_lex.specs.inside.Mask.{Marks};
ghost use Rattle.rma_lex.specs.inside.Reached.{Reaches};

use crate::blank::{blanks_of_block, blanks_of_short_line, is_blank};
use crate::mask::{lowest, without_lowest};

/// A position in a line, and the edges that were found after it.
#[derive(Debug, Drop)]
pub(crate) struct Edges<'a> {
    /// The line.
    pub(crate) line: &'a [u8],
    /// The position.
    pub(crate) place: usize,
    /// The line was searched for edges up to 64 bytes after the base.
    base: usize,
    /// The edges after the position: bit k is for the position `base + k`.
    mask: u64,
}

impl<'a> Edges<'a> {
    /// At the beginning of the line.
    #[inline]
    pub(crate) fn new(line: &'a [u8]) -> Edges<'a>
        ensures bound { length line.now < 2 ^ 64 }
        ensures line { result.line.now ≡ line.now }
        ensures place { result.place ≡ 0 }
        ensures reaches { Reaches result }
    {
        let blanks = if line.len() < 64 {
            blanks_of_short_line(line)
        } else {
            blanks_of_block(line, 0)
        };
        Edges {
            line,
            place: 0,
            base: 0,
            mask: edges_between(blanks, blanks & 1),
        }
    }

    /// Goes on to the next edge, or to the end of the line.
    #[inline]
    pub(crate) fn go_on(&mut self)
        requires { Reaches self.old }
        ensures line { self.new.line.now ≡ self.old.line.now }
        ensures next { IsNextEdge self.old.line.now self.old.place self.new.place }
        ensures reaches { Reaches self.new }
    {
        self.look_ahead();
        if self.mask == 0 {
            self.place = self.line.len();
            return;
        }
        self.place = self.base + lowest(self.mask);
        self.mask = without_lowest(self.mask);
    }

    /// Where no edge is at hand, searches on, up to a block that has edges or else to the end of the line.
    #[inline]
    fn look_ahead(&mut self)
        requires { Reaches self.old }
        ensures line { self.new.line.now ≡ self.old.line.now }
        ensures place { self.new.place ≡ self.old.place }
        ensures reaches { Reaches self.new }
        ensures ended { self.new.mask ≡ 0 → length self.new.line.now ≤ self.new.base + 64 }
    {
        if self.mask != 0 || self.line.len() - self.base <= 64 {
            return;
        }
        let (base, mask) = further_edges(self.line, self.place, self.base);
        self.base = base;
        self.mask = mask;
    }

    /// Searches the next bytes, up to 64 of them.
    #[inline]
    fn search(&mut self)
        requires reaches { Reaches self.old }
        requires none_left { self.old.mask ≡ 0 }
        requires more { self.old.base + 64 < length self.old.line.now }
        ensures line { self.new.line.now ≡ self.old.line.now }
        ensures place { self.new.place ≡ self.old.place }
        ensures reaches { Reaches self.new }
        ensures moves { self.old.base < self.new.base }
    {
        let seen = self.base + 64;
        self.base = seen.min(self.line.len() - 64);
        self.mask = edges_of_block(self.line, self.base, seen - self.base);
    }
}

/// The base and the mask of the next block that has edges, or of the last one, where the line was searched up to a base.
#[inline(never)]
fn further_edges(line: &[u8], place: usize, base: usize) -> (usize, u64)
    requires { Reaches (record { line = line; place = place; base = base; mask = 0 }) }
    ensures reaches { Reaches (record { line = line.entry; place = place; base = result.0; mask = result.1 }) }
    ensures ended { result.1 ≡ 0 → length line.now ≤ result.0 + 64 }
{
    let mut edges = Edges {
        line,
        place,
        base,
        mask: 0,
    };
    while edges.mask == 0 && edges.line.len() - edges.base > 64 {
        edges.search();
    }
    (edges.base, edges.mask)
}

/// The edges among the 64 positions from one on, but for the first `skipped`: bit k is for the position `from + k`.
#[inline(never)]
fn edges_of_block(line: &[u8], from: usize, skipped: usize) -> u64
    requires inside { 0 < from }
    requires within { from + 64 ≤ length line.now }
    requires some { skipped < 64 }
    ensures { Marks (is_edge line.now) from result (from + skipped) (from + 64) }
{
    let before = u64::from(is_blank(line[from - 1]));
    edges_between(blanks_of_block(line, from), before) & (u64::MAX << skipped)
}

/// The bits of a mask of blanks that differ from the one below them, which for the lowest bit is the one given.
#[inline]
fn edges_between(blanks: u64, before: u64) -> u64
    requires { before < 2 }
    ensures lowest { bit_at result 0 ≡ (bit_at blanks 0 + before) % 2 }
    ensures others { (k : ℕ) → k < 63 → bit_at result (k + 1) ≡ (bit_at blanks (k + 1) + bit_at blanks k) % 2 }
{
    blanks ^ (blanks << 1 | before)
}
