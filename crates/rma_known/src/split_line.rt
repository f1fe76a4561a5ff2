//! A line as its words and its site.
ghost use Rattle.std.specs.Prelude.{◌≡◌, ◌<◌, ◌≤◌, ◌-◌, true, drop, length, slice_index, option_map};
ghost use Rattle.std.specs.List.{list_all};
ghost use Rattle.rma_lex.specs.Field.{is_blank, is_field};
ghost use Rattle.rma_known.specs.Split.{IsSplit};

use crate::key::key_of;
use rma_lex::last_blank;
use std::marker::Model;

/// A line as its words, which say what a call does, and its site, which says where the program makes it.
#[derive(Debug, Drop)]
pub struct SplitLine<'a> {
    /// The line.
    line: &'a [u8],
    /// The line without its site.
    words: &'a [u8],
    /// The text of the site.
    site: Option<&'a [u8]>,
    /// The key of the words, if these are looked up.
    key: Option<u64>,
}

impl<'a> Model for SplitLine<'a> {
    ghost use Rattle.std.specs.Prelude.{option_map};
    ghost use Rattle.rma_known.specs.Split.{IsSplit, SplitText};

    ghost Value = { SplitText };

    ghost view = { λ own. record { line = own.line.now; words = own.words.now; site = option_map (λ text. text.now) own.site } };

    ghost invariant = { λ own. IsSplit own.line.now own.words.now (option_map (λ text. text.now) own.site) };
}

impl<'a> SplitLine<'a> {
    /// The line of this text, whose words are not looked up.
    #[inline]
    pub fn new(line: &'a [u8]) -> SplitLine<'a>
        ensures { result.line ≡ line.now }
    {
        if is_comment(line) {
            return SplitLine {
                line,
                words: line,
                site: None,
                key: None,
            };
        }
        let (words, site) = split_site(line);
        SplitLine {
            line,
            words,
            site,
            key: None,
        }
    }

    /// The same line, whose words are looked up, if it is no comment.
    #[inline]
    pub fn keyed(self) -> SplitLine<'a>
        ensures { result ≡ self.entry }
    {
        if is_comment(self.line) {
            return self;
        }
        SplitLine {
            line: self.line,
            words: self.words,
            site: self.site,
            key: Some(key_of(self.words)),
        }
    }

    /// The line.
    #[inline]
    pub fn line(&self) -> &'a [u8]
        ensures { result.now ≡ self.now.line }
    {
        self.line
    }

    /// Its words.
    #[inline]
    pub fn words(&self) -> &'a [u8]
        ensures { result.now ≡ self.now.words }
    {
        self.words
    }

    /// The text of its site.
    #[inline]
    pub fn site(&self) -> Option<&'a [u8]>
        ensures site { option_map (λ text. text.now) result ≡ self.now.site }
        ensures split { IsSplit self.now.line self.now.words self.now.site }
    {
        let _ = self.words;
        self.site
    }

    /// The key of its words, if these are looked up.
    #[inline]
    pub fn key(&self) -> Option<u64> {
        self.key
    }
}

/// Whether the line begins as a comment does.
#[inline]
pub fn is_comment(line: &[u8]) -> bool {
    line.first() == Some(&b'#')
}

/// The line without its last field where that begins with `@`, and what stands there after the `@`.
#[inline]
fn split_site(line: &[u8]) -> (&[u8], Option<&[u8]>)
    ensures { IsSplit line.now result.0.now (option_map (λ text. text.now) result.1) }
{
    let start = last_field(line);
    if 0 < start && start < line.len() && line[start] == b'@' {
        (&line[..start - 1], Some(&line[start + 1..]))
    } else {
        (line, None)
    }
}

/// Where the last field of the line begins, if the line ends with one.
#[inline]
fn last_field(line: &[u8]) -> usize
    ensures within { result ≤ length line.now }
    ensures field { list_all is_field (drop result line.now) ≡ true }
    ensures blank { 0 < result → is_blank (slice_index line.now (result - 1)) ≡ true }
{
    match last_blank(line) {
        Some(blank) => blank + 1,
        None => 0,
    }
}
