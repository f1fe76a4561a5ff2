//! The words of a line behind its verb.
ghost use Rattle.std.specs.Prelude.{◌≡◌, [], drop, true, option_map, IfOk};
ghost use Rattle.rma_lex.specs.Field.{fields, texts};
ghost use Rattle.rma_form.specs.Lines.{begins_with, fields_of, site_text};
ghost use Rattle.rma_field.specs.Texts.{texts_at};

use arrayvec::ArrayVec;
use rma_base::Memory;
use rma_lex::{TokenIter, tokens};

/// The words that are left of the line, which are those behind its verb. Those of most lines have room among the few.
#[inline]
pub(crate) fn words_of<'w, 'a>(
    line: &'a [u8],
    rest: TokenIter<'a>,
    few: &'w mut ArrayVec<&'a [u8], 16>,
    many: &'w mut Vec<&'a [u8]>,
) -> Result<&'w [&'a [u8]], Memory>
    requires left { texts rest ≡ drop 1 (texts (fields line.now)) }
    requires no_few { few.old.items ≡ [] }
    requires no_many { many.old.items ≡ [] }
    ensures { IfOk result (λ words. texts_at words.now ≡ drop 1 (texts (fields line.now))) }
{
    if take_few(few, rest) {
        return Ok(few.as_slice());
    }
    take_all(many, line)?;
    Ok(many.as_slice())
}

// Takes the words that are left, as many as there is room for, and answers whether that is all of them.
#[inline]
fn take_few<'a>(few: &mut ArrayVec<&'a [u8], 16>, rest: TokenIter<'a>) -> bool
    requires { few.old.items ≡ [] }
    ensures { result ≡ true → texts_at few.new.items ≡ texts rest.entry }
{
    let mut rest = rest;
    'words: while let Some(token) = rest.next() {
        if few.is_full() {
            return false;
        }
        few.push(token.text);
    }
    true
}

// Takes all words behind the verb of the line, however many they are.
#[cold]
fn take_all<'a>(many: &mut Vec<&'a [u8]>, line: &'a [u8]) -> Result<(), Memory>
    requires { many.old.items ≡ [] }
    ensures { IfOk result (λ _. texts_at many.new.items ≡ drop 1 (texts (fields line.now))) }
{
    let mut rest = tokens(line);
    rest.next();
    'words: while let Some(token) = rest.next() {
        many.push(token.text)?;
    }
    Ok(())
}

/// The words without the site, and the site behind its `@`.
#[inline]
pub(crate) fn fields_and_site<'w, 'a>(words: &'w [&'a [u8]]) -> (&'w [&'a [u8]], Option<&'a [u8]>)
    ensures fields { texts_at result.0.now ≡ fields_of (texts_at words.now) }
    ensures site { option_map (λ text. text.now) result.1 ≡ site_text (texts_at words.now) }
{
    match words.split_last() {
        Some((word, fields)) if begins_with(word, b'@') => (fields, Some(&word[1..])),
        _ => (words, None),
    }
}

pub(crate) fn begins_with(text: &[u8], byte: u8) -> bool
    ensures { result ≡ begins_with byte text.now }
{
    match text.first() {
        Some(first) => *first == byte,
        None => false,
    }
}
