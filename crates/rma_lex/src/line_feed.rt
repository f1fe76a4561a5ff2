//! The line feeds of a text, found a block of 64 bytes at a time and handed out one by one.
//!
//! The same search looks at every byte, so that a line of bytes of texts alone needs no second look.
ghost use Rattle.std.specs.Prelude.{◌≡◌, ◌↔◌, ℕ, ◌+◌, ◌<◌, ◌≤◌, List, length, drop, take, true, false, IsTrue, IfNone, IfSome, slice_index};
ghost use Rattle.std.specs.List.{list_all};
ghost use Rattle.rma_lex.specs.inside.LineFeed.{NoFeed, IsFirstFeed, IsLineAt, MarksFeeds};
ghost use Rattle.rma_lex.specs.inside.Clean.{is_clean_byte, IsClean};
ghost use Rattle.rma_lex.specs.inside.Mask.{Marks};

use crate::mask::{lowest, without_lowest};
use crate::text::is_text;
use std::simd::prelude::*;

/// What is known of the line feeds of a text, of which the first lines were handed out.
#[derive(Drop)]
pub(crate) struct LineFeeds {
    /// Where the next line begins.
    pub(crate) start: usize,
    /// From here on, all that was searched are bytes of texts and line feeds.
    pub(crate) doubtful: usize,
    /// Where the text was not searched yet.
    seen: usize,
    /// Where the bytes of the mask begin.
    base: usize,
    /// The line feeds that were found and not handed out yet: bit k is for the byte at `base + k`.
    mask: u64,
}

impl LineFeeds {
    ghost use Rattle.rma_lex.specs.inside.Found.{Knows};

    /// Nothing was searched yet.
    pub(crate) fn new() -> LineFeeds
        ensures start { result.start ≡ 0 }
        ensures knows { (text : List ℕ) → Knows result text }
    {
        LineFeeds {
            start: 0,
            doubtful: 0,
            seen: 0,
            base: 0,
            mask: 0,
        }
    }

    /// Where the next line ends. The line after it is then the next one.
    #[inline]
    pub(crate) fn next_end(&mut self, text: &[u8], closed: bool) -> Option<usize>
        requires { Knows self.old text.now }
        ensures none { IfNone result (NoFeed text.now self.old.start (length text.now) × (closed ≡ true → self.old.start ≡ length text.now) × (self.new.start ≡ self.old.start)) }
        ensures some { IfSome result (λ end. IsLineAt text.now closed self.old.start end self.new.start) }
        ensures knows { Knows self.new text.now }
    {
        match self.next_feed(text) {
            Some(end) => Some(end),
            None if closed && self.start < text.len() => {
                self.start = text.len();
                Some(text.len())
            }
            None => None,
        }
    }

    /// Where the next line feed is. The next line then begins after it.
    #[inline]
    fn next_feed(&mut self, text: &[u8]) -> Option<usize>
        requires { Knows self.old text.now }
        ensures none { IfNone result (NoFeed text.now self.old.start (length text.now) × (self.new.start ≡ self.old.start) × (self.new.seen ≡ length text.now) × (self.new.mask ≡ 0)) }
        ensures some { IfSome result (λ place. IsFirstFeed text.now self.old.start place × (self.new.start ≡ place + 1)) }
        ensures knows { Knows self.new text.now }
    {
        if self.mask == 0 {
            self.search(text);
            if self.mask == 0 {
                return None;
            }
        }
        let place = self.base + lowest(self.mask);
        self.mask = without_lowest(self.mask);
        self.start = place + 1;
        Some(place)
    }

    /// Searches on, up to a block that has line feeds or else to the end.
    fn search(&mut self, text: &[u8])
        requires knows { Knows self.old text.now }
        requires none_left { self.old.mask ≡ 0 }
        ensures start { self.new.start ≡ self.old.start }
        ensures knows { Knows self.new text.now }
        ensures ended { self.new.mask ≡ 0 → self.new.seen ≡ length text.now }
    {
        while self.mask == 0 && 64 <= text.len() - self.seen {
            self.search_block(text);
        }
        if self.mask == 0 {
            self.search_tail(text);
        }
    }

    /// Searches the next 64 bytes.
    #[inline]
    fn search_block(&mut self, text: &[u8])
        requires knows { Knows self.old text.now }
        requires none_left { self.old.mask ≡ 0 }
        requires within { self.old.seen + 64 ≤ length text.now }
        ensures start { self.new.start ≡ self.old.start }
        ensures knows { Knows self.new text.now }
        ensures seen { self.new.seen ≡ self.old.seen + 64 }
    {
        self.base = self.seen;
        self.mask = feeds_of_block(text, self.base);
        self.seen += 64;
        if !is_clean_block(text, self.base) {
            self.doubtful = self.seen;
        }
    }

    /// Searches the bytes that are left, which are fewer than 64.
    fn search_tail(&mut self, text: &[u8])
        requires knows { Knows self.old text.now }
        requires none_left { self.old.mask ≡ 0 }
        requires short { length text.now < self.old.seen + 64 }
        ensures start { self.new.start ≡ self.old.start }
        ensures knows { Knows self.new text.now }
        ensures seen { self.new.seen ≡ length text.now }
    {
        self.base = self.seen;
        self.mask = feeds_of_tail(text, self.base);
        self.seen = text.len();
        if !is_clean_tail(text, self.base) {
            self.doubtful = self.seen;
        }
    }

    /// Whether no line feed is left.
    pub(crate) fn has_none(&mut self, text: &[u8]) -> bool
        requires { Knows self.old text.now }
        ensures none { result ≡ true → NoFeed text.now self.old.start (length text.now) × (self.new.mask ≡ 0) × (self.new.seen ≡ length text.now) }
        ensures some { result ≡ false → ¬ NoFeed text.now self.old.start (length text.now) }
        ensures start { self.new.start ≡ self.old.start }
        ensures knows { Knows self.new text.now }
    {
        if self.mask != 0 {
            return false;
        }
        self.search(text);
        self.mask == 0
    }

    /// The text from `end` on was dropped.
    pub(crate) fn cut_off(&mut self, end: usize)
        requires none { self.old.mask ≡ 0 }
        requires after { self.old.start ≤ end }
        requires searched { end ≤ self.old.seen }
        ensures start { self.new.start ≡ self.old.start }
        ensures knows { (text : List ℕ) → Knows self.old text → Knows self.new (take end text) }
    {
        self.seen = end;
    }

    /// The text before the start was dropped.
    pub(crate) fn move_down(&mut self)
        requires { self.old.start ≤ self.old.seen }
        ensures start { self.new.start ≡ 0 }
        ensures knows { (text : List ℕ) → Knows self.old text → Knows self.new (drop self.old.start text) }
    {
        self.seen = if self.mask == 0 {
            self.seen - self.start
        } else {
            0
        };
        self.doubtful = self.doubtful.saturating_sub(self.start);
        self.mask = 0;
        self.start = 0;
    }
}

/// The line feeds of the 64 bytes from an index on: bit k is for the byte at `from + k`.
#[inline]
fn feeds_of_block(text: &[u8], from: usize) -> u64
    requires { from + 64 ≤ length text.now }
    ensures { MarksFeeds text.now from (from + 64) result }
{
    u8x64::from_slice(&text[from..])
        .simd_eq(u8x64::splat(b'\n'))
        .to_bitmask()
}

/// The line feeds of the bytes from an index on, which are fewer than 64.
fn feeds_of_tail(text: &[u8], from: usize) -> u64
    requires ordered { from ≤ length text.now }
    requires short { length text.now < from + 64 }
    ensures { MarksFeeds text.now from (length text.now) result }
{
    let mut mask = 0;
    for (k, byte) in text[from..].iter().enumerate() {
        if *byte == b'\n' {
            mask |= 1 << k;
        }
    }
    mask
}

/// Whether the 64 bytes from an index on are all bytes of texts or line feeds.
#[inline]
fn is_clean_block(text: &[u8], from: usize) -> bool
    requires { from + 64 ≤ length text.now }
    ensures { IsTrue result ↔ IsClean text.now from (from + 64) }
{
    clean_of_block(text, from) == u64::MAX
}

/// The bytes of texts and the line feeds among the 64 bytes from an index on: bit k is for the byte at `from + k`.
#[inline]
fn clean_of_block(text: &[u8], from: usize) -> u64
    requires { from + 64 ≤ length text.now }
    ensures { Marks (λ place. is_clean_byte (slice_index text.now place)) from result from (from + 64) }
{
    let bytes = u8x64::from_slice(&text[from..]);
    let tabs = bytes.simd_eq(u8x64::splat(b'\t'));
    let feeds = bytes.simd_eq(u8x64::splat(b'\n'));
    let from_space = bytes.simd_ge(u8x64::splat(b' '));
    let to_tilde = bytes.simd_le(u8x64::splat(b'~'));
    (tabs | from_space & to_tilde | feeds).to_bitmask()
}

/// Whether the bytes from an index on are all bytes of texts or line feeds.
fn is_clean_tail(text: &[u8], from: usize) -> bool
    requires { from ≤ length text.now }
    ensures { result ≡ true → IsClean text.now from (length text.now) }
{
    all_clean(&text[from..])
}

/// Whether the bytes are all bytes of texts or line feeds.
fn all_clean(bytes: &[u8]) -> bool
    ensures { result ≡ list_all is_clean_byte bytes.now }
{
    bytes.iter().all(|byte| is_text(*byte) || *byte == b'\n')
}
