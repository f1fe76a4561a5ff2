//! The sites of the lines that come next.
ghost use Rattle.std.specs.Prelude.{◌≡◌, length};

use crate::site_slots::SiteSlots;
use arrayvec::ArrayVec;
use rma_call::CallList;
use rma_known::key_of;
use std::simd::prelude::*;

/// So many bytes are searched at a time.
const BLOCK: usize = 64;

/// The sites of so many lines are foreseen.
const MOST: usize = 128;

/// The place of what stands in an earlier piece.
const EARLIER: usize = usize::MAX;

/// The keys of some sites.
type Keys = ArrayVec<u64, MOST>;

/// What the sites of the lines that come next most likely are, in the order of these. It decides nothing: whoever takes a number
/// from it compares the texts.
#[derive(Drop)]
pub(crate) struct ForeseenSites {
    /// The numbers of the sites.
    numbers: ArrayVec<u32, MOST>,
    /// How many of them were taken.
    taken: usize,
    /// Whether the site of the line that goes on began in an earlier piece.
    is_open: bool,
    /// What came of reading ahead. It says nothing: that it is kept keeps the reads.
    seen: u64,
}

impl ForeseenSites {
    /// None.
    pub(crate) fn new() -> ForeseenSites {
        ForeseenSites {
            numbers: ArrayVec::new(),
            taken: 0,
            is_open: false,
            seen: 0,
        }
    }

    /// Forgets all sites.
    pub(crate) fn clear(&mut self) {
        self.numbers.clear();
        self.taken = 0;
    }

    /// Foresees the sites of the lines that end in this piece of a log, whose sites have these slots and so many numbers in this
    /// list. The slots are read ahead, and then the texts: memory answers many reads at once, where each would wait for the one before
    /// it, and the less is done between them the more are under way.
    pub(crate) fn foresee(&mut self, piece: &[u8], slots: &SiteSlots, list: &CallList, sites: u32)
        requires { sites ≡ length list.now.sites }
    {
        self.clear();
        let keys = self.keys(piece);
        self.seen ^= slots.read_ahead(keys.as_slice());
        for key in keys.as_slice() {
            if !self.numbers.is_full() {
                self.numbers.push(slots.likely_number(*key));
            }
        }
        self.seen ^= read_ahead(self.numbers.as_slice(), list, sites);
    }

    /// The keys of the sites of the lines that end in a piece of a log.
    fn keys(&mut self, piece: &[u8]) -> Keys {
        let mut keys = Keys::new();
        let mut ahead = Ahead {
            line: 0,
            site: if self.is_open { EARLIER } else { 0 },
        };
        for block in 0..piece.len() / BLOCK {
            ahead = note_block(&mut keys, piece, block.wrapping_mul(BLOCK), ahead);
        }
        self.is_open = ahead.has_site();
        keys
    }

    /// The number of the site of the next line, if one is foreseen.
    #[inline]
    pub(crate) fn next(&mut self) -> Option<u32> {
        let next = self.taken;
        self.taken = next.wrapping_add(1);
        match self.numbers.as_slice().get(next) {
            Some(number) => Some(*number),
            None => None,
        }
    }
}

/// Reads the texts of the sites of these numbers, of so many sites in a list.
fn read_ahead(numbers: &[u32], list: &CallList, sites: u32) -> u64
    requires { sites ≡ length list.now.sites }
{
    let mut seen = 0;
    for number in numbers {
        if *number < sites {
            if let Some(last) = list.site(*number).bytes().last() {
                seen ^= u64::from(*last);
            }
        }
    }
    seen
}

/// Where the line that goes on begins, and its site.
#[derive(Clone, Copy)]
struct Ahead {
    /// Where the line begins.
    line: usize,
    /// Where its site begins, behind its `@`: not behind the beginning of the line, where it has none.
    site: usize,
}

impl Ahead {
    /// Whether the line has a site.
    #[inline]
    fn has_site(self) -> bool {
        self.line < self.site
    }

    /// The same with these places behind an index where an `@` stands, the last of which counts.
    #[inline]
    fn with_sites(self, from: usize, marks: u64) -> Ahead {
        if marks == 0 {
            return self;
        }
        let last = BLOCK.wrapping_sub(marks.leading_zeros() as usize);
        Ahead {
            line: self.line,
            site: from.wrapping_add(last),
        }
    }
}

/// Notes the keys of the sites of the lines that end in the 64 bytes from an index of a text on, and says what goes on behind them.
#[inline]
fn note_block(keys: &mut Keys, text: &[u8], from: usize, ahead: Ahead) -> Ahead {
    let sites = marks_of_block(text, from, b'@');
    let mut ends = marks_of_block(text, from, b'\n');
    let mut ahead = ahead;
    for _ in 0..ends.count_ones() {
        let end = ends.trailing_zeros();
        ends &= ends.wrapping_sub(1);
        let line = ahead.with_sites(from, sites & !u64::MAX.wrapping_shl(end));
        ahead = note_line(keys, text, line, from.wrapping_add(end as usize));
    }
    ahead.with_sites(from, sites)
}

/// Notes the key of the site of a line that ends at a place, if it has one, and says what goes on behind that.
#[inline]
fn note_line(keys: &mut Keys, text: &[u8], line: Ahead, end: usize) -> Ahead {
    if line.has_site() && !keys.is_full() {
        keys.push(key_at(text, line.site, end));
    }
    let next = end.wrapping_add(1);
    Ahead {
        line: next,
        site: next,
    }
}

/// The key of the site between two places of a text. Of a site that began in an earlier one nothing is known.
#[inline]
fn key_at(text: &[u8], start: usize, end: usize) -> u64 {
    match text.get(start..end) {
        Some(site) => key_of(site),
        None => 0,
    }
}

/// Where a byte stands among the 64 from an index on: bit k is for the one at `from + k`.
#[inline]
fn marks_of_block(text: &[u8], from: usize, byte: u8) -> u64 {
    match text.get(from..from.wrapping_add(BLOCK)) {
        Some(block) if block.len() >= BLOCK => u8x64::from_slice(block)
            .simd_eq(u8x64::splat(byte))
            .to_bitmask(),
        _ => 0,
    }
}
