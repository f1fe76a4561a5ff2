//! Reading a line.
ghost use Rattle.std.specs.Prelude.{◌≡◌, ◌≤◌, drop, length, option_map, IfOk};
ghost use Rattle.rma_lex.specs.Field.{fields, texts};
ghost use Rattle.rma_field.specs.Steps.{Gives, Passes};
ghost use Rattle.rma_field.specs.Texts.{texts_at};
ghost use Rattle.rma_form.specs.Forms.{form_at, form_of, kind_words};
ghost use Rattle.rma_form.specs.Lines.{counted, reading, site_of, stated_by};
ghost use Rattle.rma_parse.specs.inside.Words.{as_found};

use crate::form::read_fields;
use crate::words::{begins_with, fields_and_site, words_of};
use arrayvec::ArrayVec;
use rma_base::{FormReason, Site, Version};
use rma_field::{ParseError, Texts, refused};
use rma_form::{LineForm, Stated, behind, form_of, tail_counted};
use rma_lex::{TokenIter, tokens};

/// What a line of a log of this version states; a header is read in the version that it names. A blank line and a comment
/// state nothing. Names and sites are copies of those that are kept of the log.
///
/// # Errors
///
/// The first reason for which the line is bad, or that memory ran out.
pub fn parse_line(
    kept: &mut Texts,
    version: Version,
    line: &[u8],
) -> Result<Option<Stated>, ParseError>
    ensures { Gives result (reading version line.now) }
{
    let mut rest = tokens(line);
    match rest.next() {
        Some(verb) if !begins_with(verb.text, b'#') => {
            read_words(kept, version, line, verb.text, rest)
        }
        _ => Ok(None),
    }
}

// What the line states, of which these are the words behind the verb.
fn read_words<'a>(
    kept: &mut Texts,
    version: Version,
    line: &'a [u8],
    verb: &'a [u8],
    rest: TokenIter<'a>,
) -> Result<Option<Stated>, ParseError>
    requires { texts rest ≡ drop 1 (texts (fields line.now)) }
    ensures { Gives result (as_found (stated_by version verb.now (drop 1 (texts (fields line.now))))) }
{
    let mut few = ArrayVec::new();
    let mut many = Vec::new(kept.allocator());
    let words = match words_of(line, rest, &mut few, &mut many) {
        Ok(words) => words,
        Err(_) => return Err(ParseError::Memory),
    };
    let (fields, site) = fields_and_site(words);
    let form = form_of_line(version, verb, fields)?;
    let further = counted(version, form, fields)?;
    let site = site_field(kept, site)?;
    let event = match read_fields(kept, version, form, further) {
        Ok(event) => event,
        Err(error) => return Err(error),
    };
    Ok(Some(Stated { event, site }))
}

// The form of a line that has this verb, and these fields behind it.
fn form_of_line(version: Version, verb: &[u8], fields: &[&[u8]]) -> Result<LineForm, ParseError>
    ensures { Gives result (form_of version verb.now (texts_at fields.now)) }
{
    form_of(version, verb, fields.first().copied())
}

// The fields behind the word of its kind, where there are as many as the form has, and words of assertions are good.
fn counted<'w, 'a>(
    version: Version,
    form: LineForm,
    fields: &'w [&'a [u8]],
) -> Result<&'w [&'a [u8]], ParseError>
    ensures gives { Passes result (counted version form (texts_at fields.now)) }
    ensures further { IfOk result (λ further. texts_at further.now ≡ drop (kind_words form) (texts_at fields.now)) }
    ensures enough { IfOk result (λ further. length (form_at form).kinds ≤ length further.now) }
{
    let (kind_words, further) = form.counts();
    let least = kind_words + further;
    if fields.len() < least {
        return Err(refused(FormReason::WrongCount));
    }
    tail_counted(version, form, behind(fields, least))?;
    Ok(behind(fields, kind_words))
}

fn site_field(kept: &mut Texts, text: Option<&[u8]>) -> Result<Option<Site>, ParseError>
    ensures { Gives result (site_of (option_map (λ text. text.now) text.entry)) }
{
    match text {
        Some(text) => match kept.site(text) {
            Ok(site) => Ok(Some(site)),
            Err(error) => Err(error),
        },
        None => Ok(None),
    }
}
