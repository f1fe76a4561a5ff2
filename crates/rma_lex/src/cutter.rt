//! A cutter of lines: it is fed a text in pieces and hands out its lines one by one.
ghost use Rattle.std.specs.Prelude.{◌≡◌, ◌↔◌, ℕ, ◌+◌, ◌^◌, ◌<◌, ◌≤◌, true, false, List, [], ◌++◌, length, IsNone, IfSome, OnOk, OnErr, slice_get, drop, vec_len, Contains};
ghost use Rattle.std.specs.List.{list_all};
ghost use Rattle.rma_lex.specs.Line.{lines, has_open_end, line_feeds};
ghost use Rattle.rma_lex.specs.Cutting.{Represents, HasNoLine};
ghost use Rattle.rma_lex.specs.Text.{is_text_byte, text_of};
ghost use Rattle.rma_lex.specs.Checked.{checked_lines};
ghost use Rattle.rma_lex.specs.Content.{content, number};

use crate::line_feed::LineFeeds;
use crate::text::text_of;
use rma_base::limits::{FED, LINE};
use rma_base::{FormReason, LineNo, Memory};
use std::alloc::Global;
use std::marker::Model;

/// A line, without what ends it.
#[derive(Clone, Copy, Debug)]
pub struct Line<'a> {
    /// The number of the line.
    pub no: LineNo,
    /// Its bytes: printable ASCII and tabs.
    pub text: &'a [u8],
}

/// A line that is bad.
#[derive(Clone, Copy, Debug, PartialEq, Eq)]
pub struct LexFault {
    /// The number of the line.
    pub no: LineNo,
    /// Why it is bad.
    pub reason: FormReason,
}

/// Cuts a text into lines. It keeps what it was fed and did not hand out, but for what `shorten` forgets; what it handed
/// out is dropped at the next feed.
#[derive(Drop)]
pub struct LineCutter {
    /// What it keeps of the text.
    text: Vec<u8>,
    /// Where the next line begins there, and the line feeds that were found after it.
    feeds: LineFeeds,
    /// The number of bytes that it was fed.
    fed: u64,
    /// The number of lines that it handed out.
    handed: u32,
    /// Whether the text has ended.
    closed: bool,
}

impl Model for LineCutter {
    ghost use Rattle.rma_lex.specs.Cutting.{Cutting};
    ghost use Rattle.rma_lex.specs.inside.Kept.{cutting_of, IsKept};

    ghost Value = { Cutting };

    ghost view = { cutting_of };

    ghost invariant = { IsKept };
}

impl LineCutter {
    ghost use Rattle.std.specs.Borrow.{sem};
    ghost use Rattle.rma_lex.specs.Handing.{LendsLine};

    /// A cutter that was fed nothing.
    pub fn new(alloc: Global) -> LineCutter
        ensures empty { result ≡ record { fed = 0; handed = 0; rest = []; closed = false } }
        ensures text { Represents result [] }
    {
        LineCutter {
            text: Vec::new(alloc),
            feeds: LineFeeds::new(),
            fed: 0,
            handed: 0,
            closed: false,
        }
    }

    /// How many bytes it was fed.
    pub fn fed(&self) -> u64
        ensures fed { result ≡ self.now.fed }
        ensures limit { result ≤ FED }
    {
        self.fed
    }

    /// Feeds it the next piece of the text. Where memory runs out the cutter is as it was.
    pub fn feed(&mut self, piece: &[u8]) -> Result<(), Memory>
        requires open { self.old.closed ≡ false }
        requires fits { self.old.fed + length piece.now ≤ FED }
        ensures ok { OnOk result (self.new ≡ record self.old { fed = self.old.fed + length piece.now; rest = self.old.rest ++ piece.now }) }
        ensures err { OnErr result (self.new ≡ self.old) }
        ensures text { OnOk result ((text : List ℕ) → Represents self.old text → Represents self.new (text ++ piece.now)) }
    {
        drop_prefix(&mut self.text, self.feeds.start);
        self.feeds.move_down();
        self.text.extend_from_slice(piece)?;
        self.fed += piece.len() as u64;
        Ok(())
    }

    /// The text has ended: what is left of it is its last line, if it is not empty.
    pub fn close(&mut self)
        ensures closed { self.new ≡ record self.old { closed = true } }
        ensures text { (text : List ℕ) → Represents self.old text → Represents self.new text }
    {
        self.closed = true;
    }

    /// Forgets bytes of the line that goes on, where it is too long already: it keeps one byte more than a line may
    /// have. The line is still refused for its length, and no other line changes.
    pub fn shorten(&mut self)
        ensures text { (text : List ℕ) → Represents self.old text → Represents self.new text }
        ensures bound { ¬ Contains self.old.rest 10 → length self.new.rest ≤ LINE + 1 }
        ensures same { self.new ≡ record self.old { rest = self.new.rest } }
    {
        if self.text.len() - self.feeds.start <= LINE {
            return;
        }
        if self.feeds.has_none(&self.text) {
            let end = self.feeds.start + LINE + 1;
            self.text.truncate(end);
            self.feeds.cut_off(end);
        }
    }

    /// The next line, if a whole one is left: its text, or why it is bad.
    #[inline]
    pub fn next_line(&mut self) -> Option<Result<Line<'_>, LexFault>>
        ensures none { IsNone result ↔ HasNoLine self.old }
        ensures number { IfSome result (λ found. number found ≡ self.old.handed + 1) }
        ensures text { (text : List ℕ) → Represents self.old text → IfSome result (λ found. slice_get (checked_lines text) self.old.handed ≡ Some (content found)) }
        ensures all { (text : List ℕ) → Represents self.old text → IsNone result → self.old.closed ≡ true → self.old.handed ≡ length (lines text) }
        ensures* after { sem 𝓛 (LendsLine self.entry result) }
    {
        let start = self.feeds.start;
        match self.feeds.next_end(&self.text, self.closed) {
            Some(end) => {
                self.handed += 1;
                let ended = end < self.feeds.start;
                let clean = self.feeds.doubtful <= start;
                Some(checked(LineNo(self.handed), &self.text[start..end], ended, clean))
            }
            None => None,
        }
    }

    /// How many lines the text has so far, a last one without a line feed too.
    pub fn lines(&self) -> u32
        ensures text { (text : List ℕ) → Represents self.now text → result ≡ length (lines text) }
        ensures rest { result ≡ self.now.handed + length (lines self.now.rest) }
        ensures bound { result ≤ FED }
    {
        self.handed + line_count(&self.text[self.feeds.start..])
    }
}

/// The line's text, or why it is bad, where it is known whether a line feed ends it and whether its bytes are those of a text.
#[inline]
fn checked(no: LineNo, line: &[u8], ended: bool, clean: bool) -> Result<Line<'_>, LexFault>
    requires { clean ≡ true → list_all is_text_byte line.now ≡ true }
    ensures content { content result ≡ text_of ended line.now }
    ensures number { number result ≡ no.0 }
{
    match text_of(line, ended, clean) {
        Ok(text) => Ok(Line { no, text }),
        Err(reason) => Err(LexFault { no, reason }),
    }
}

/// Drops the first `count` bytes.
fn drop_prefix(text: &mut Vec<u8>, count: usize)
    requires { count ≤ vec_len text.old }
    ensures { text.new.items ≡ drop count text.old.items }
{
    if count == text.len() {
        text.clear();
    } else if count > 0 {
        text.copy_within(count.., 0);
        text.truncate(text.len() - count);
    }
}

/// How many lines the text has.
fn line_count(text: &[u8]) -> u32
    requires { length text.now < 2 ^ 32 }
    ensures { result ≡ length (lines text.now) }
{
    let ended = line_feed_count(text) as u32;
    if has_open_end(text) { ended + 1 } else { ended }
}

/// How many line feeds the text has.
fn line_feed_count(text: &[u8]) -> usize
    ensures count { result ≡ line_feeds text.now }
    ensures bound { result ≤ length text.now }
{
    text.iter().filter(|byte| **byte == b'\n').count()
}

/// Whether the text is not empty and does not end in a line feed.
fn has_open_end(text: &[u8]) -> bool
    ensures { result ≡ has_open_end text.now }
{
    match text.last() {
        Some(byte) => *byte != b'\n',
        None => false,
    }
}
