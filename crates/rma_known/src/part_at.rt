//! Where the particulars of a call stand among its words.
ghost use Rattle.std.specs.Prelude.{◌≡◌, ◌+◌, ◌<◌, ◌≤◌, ◌^◌, false, IfSome, ◌∷◌, drop, length, take, true};
ghost use Rattle.std.specs.List.{list_all};
ghost use Rattle.rma_lex.specs.Field.{begins_field, is_blank, is_field};
ghost use Rattle.rma_known.specs.inside.Templates.{IsNextWord, IsNoted, Stand};

use crate::call_form::{Part, Place};
use arrayvec::ArrayVec;
use rma_base::Version;

/// Where a particular stands among words that are known, counted from the one before it.
#[derive(Clone, Copy, Debug, Default)]
pub(crate) struct PartAt {
    /// How many bytes stand before it: other words, and the blanks round them.
    pub(crate) before: usize,
    /// How many bytes it has.
    pub(crate) len: usize,
    /// What may stand there.
    pub(crate) part: Part,
}

/// Where the particulars of a call stand.
pub(crate) type PartsAt = ArrayVec<PartAt, 5>;

/// A word that comes next in a text.
#[derive(Clone, Copy, Debug)]
struct NextWord {
    /// How many blanks stand before it.
    gap: usize,
    /// How many bytes it has.
    len: usize,
}

/// Where the particulars stand in the words of a line whose fields say this, behind its verb. None, where it has fewer fields, or
/// too many particulars.
pub(crate) fn parts_at(version: Version, words: &[u8], places: &[Place]) -> Option<PartsAt>
    ensures { IfSome result (λ found. Stand version found.items words.now (Place.Same ∷ places.now)) }
{
    let Some(verb) = next_word(words) else {
        return None;
    };
    let mut parts = PartsAt::new();
    let mut before = verb.gap + verb.len;
    let mut rest = behind(words, before);
    for i in 0..places.len() {
        let Some(word) = next_word(rest) else {
            return None;
        };
        let part = places[i].part(version);
        let Some(next) = note(&mut parts, before, word, part) else {
            return None;
        };
        before = next;
        rest = behind(rest, word.gap + word.len);
    }
    Some(parts)
}

/// Notes where a word stands, if it is a particular, and answers how many bytes stand behind the last particular then. So many
/// stand between that one and what comes before the word. None, where there are too many particulars.
#[inline]
fn note(parts: &mut PartsAt, before: usize, word: NextWord, part: Option<Part>) -> Option<usize>
    requires { before + word.gap + word.len < 2 ^ 63 }
    ensures { IfSome result (λ next. IsNoted part before word parts.old.items parts.new.items next) }
{
    let Some(part) = part else {
        return Some(before + word.gap + word.len);
    };
    if parts.is_full() {
        return None;
    }
    parts.push(PartAt {
        before: before + word.gap,
        len: word.len,
        part,
    });
    Some(0)
}

/// The first word of a text, with the blanks before it.
#[inline]
fn next_word(text: &[u8]) -> Option<NextWord>
    ensures { IfSome result (λ word. IsNextWord text.now word) }
{
    let gap = blank_len(text);
    let len = word_len(behind(text, gap));
    if len == 0 {
        return None;
    }
    Some(NextWord { gap, len })
}

/// How many bytes of a text stand before its first byte that is no blank.
#[inline]
fn blank_len(text: &[u8]) -> usize
    ensures within { result ≤ length text.now }
    ensures blanks { list_all is_blank (take result text.now) ≡ true }
{
    for i in 0..text.len() {
        if !is_blank(text[i]) {
            return i;
        }
    }
    text.len()
}

/// How many bytes of a text stand before its first blank.
#[inline]
pub(crate) fn word_len(text: &[u8]) -> usize
    ensures within { result ≤ length text.now }
    ensures word { list_all is_field (take result text.now) ≡ true }
    ensures apart { begins_field (drop result text.now) ≡ false }
{
    for i in 0..text.len() {
        if is_blank(text[i]) {
            return i;
        }
    }
    text.len()
}

/// What stands in a text from a position on.
#[inline]
pub(crate) fn behind(text: &[u8], at: usize) -> &[u8]
    requires { at ≤ length text.now }
    ensures { result.now ≡ drop at text.now }
{
    &text[at..]
}

/// Whether the byte is a space or a tab.
#[inline]
pub(crate) fn is_blank(byte: u8) -> bool
    ensures { result ≡ is_blank byte }
{
    byte == b' ' || byte == b'\t'
}
