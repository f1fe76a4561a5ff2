//! A call that came before, and may come again elsewhere.
ghost use Rattle.std.specs.Prelude.{◌≡◌, ◌+◌, ◌≤◌, ◌∷◌, [], ℕ, true, false, List, Ok, drop, length, take, IfOk, IfSome, MatchOption};
ghost use Rattle.std.specs.Option.{option_copied};
ghost use Rattle.rma_lex.specs.Field.{texts};
ghost use Rattle.rma_form.specs.Forms.{form_of};
ghost use Rattle.rma_known.specs.Elsewhere.{Details, Says, form_of_call, joined, no_details};
ghost use Rattle.rma_known.specs.declared.call_form.Part.TheVariants as part;
ghost use Rattle.rma_known.specs.inside.Templates.{AreAlike, Fit, HasPart, IsLow, IsMadeAs, IsPartWord, words_in};

use crate::call_form::{CallForm, Part};
use crate::decimal::front_digits;
use crate::part_at::{PartAt, PartsAt, behind, is_blank, parts_at, word_len};
use crate::particulars::Particulars;
use crate::placed_call::PlacedCall;
use rma_base::limits::SPACE;
use rma_base::{Memory, Name, Version, is_same};
use rma_field::{ParseError, Texts, natural};
use rma_form::form_of;
use rma_lex::{TokenIter, tokens};
use std::marker::Model;

/// A call that came before, by the words of its line. Most slots have none, so a slot has a pointer.
#[derive(Drop)]
pub(crate) struct CallTemplate {
    stated: Box<StatedCall>,
}

/// The words of a line, with the call that they state.
#[derive(Drop)]
struct StatedCall {
    /// The version of the format in which they were read.
    version: Version,
    /// The words.
    words: Vec<u8>,
    /// The number of what the call does.
    what: u32,
    /// Its form.
    form: CallForm,
    /// Where its particulars stand in the words.
    parts: PartsAt,
    /// These.
    from: Particulars,
}

impl Model for CallTemplate {
    ghost use Rattle.rma_known.specs.inside.Templates.{Placed};

    ghost Value = { Placed };

    ghost view = { λ own. own.stated.value };
}

impl Model for StatedCall {
    ghost use Rattle.std.specs.Prelude.{false};
    ghost use Rattle.rma_known.specs.inside.Templates.{IsOfParts, Placed};

    ghost Value = { Placed };

    ghost view = { λ own. record {
      known = record { version = own.version; words = own.words.items; what = own.what; request = own.from.request; lasts = false };
      form = own.form;
      from = own.from;
    } };

    ghost invariant = { λ own. IsOfParts own.version own.words.items own.parts.items own.form own.from };
}

impl CallTemplate {
    /// The call of this form that these words state, which were read in this version. It does what has this number, and has this
    /// request. None, where they are not of the form, or have no particulars in their places.
    pub(crate) fn new(
        texts: &mut Texts,
        version: Version,
        words: &[u8],
        form: CallForm,
        what: u32,
        request: Option<&Name>,
    ) -> Result<Option<CallTemplate>, Memory>
        ensures { IfOk result (λ own. IfSome own (λ own. own.known ≡ record { version = version; words = words.now; what = what; request = option_copied request.entry; lasts = false })) }
    {
        match StatedCall::new(texts, version, words, form, what, request)? {
            Some(call) => Ok(Some(CallTemplate {
                stated: Box::new(texts.allocator(), call)?,
            })),
            None => Ok(None),
        }
    }

    /// The call, where these words, read in this version, are those of it elsewhere; then these are its particulars there.
    #[inline]
    pub(crate) fn elsewhere(
        &self,
        texts: &mut Texts,
        version: Version,
        words: &[u8],
        to: &mut Particulars,
    ) -> Result<Option<PlacedCall<'_>>, Memory>
        requires { to.old ≡ no_details }
        ensures { IfOk result (λ found. IfSome found (λ found. IsMadeAs self.now version words.now found.what found.requests found.from.now to.new)) }
    {
        self.stated.elsewhere(texts, version, words, to)
    }
}

impl StatedCall {
    /// The call of this form that these words state, which were read in this version. It does what has this number, and has this
    /// request. None, where they are not of the form, or have no particulars in their places.
    fn new(
        texts: &mut Texts,
        version: Version,
        words: &[u8],
        form: CallForm,
        what: u32,
        request: Option<&Name>,
    ) -> Result<Option<StatedCall>, Memory>
        ensures { IfOk result (λ own. IfSome own (λ own. own.known ≡ record { version = version; words = words.now; what = what; request = option_copied request.entry; lasts = false })) }
    {
        if !is_of_form(version, words, form) {
            return Ok(None);
        }
        let Some(parts) = parts_at(version, words, form.places()) else {
            return Ok(None);
        };
        let mut from = Particulars::new();
        if !are_alike(texts, parts.as_slice(), words, words, &mut from)?
            || !is_request(from.request(), request)
        {
            return Ok(None);
        }
        Ok(Some(StatedCall {
            version,
            words: Vec::from_slice(texts.allocator(), words)?,
            what,
            form,
            parts,
            from,
        }))
    }

    /// Whether its words were read in this version.
    #[inline]
    fn is_of(&self, version: Version) -> bool
        ensures { result ≡ true → self.now.known.version ≡ version }
    {
        self.version == version
    }

    /// The call, where these words, read in this version, are those of it elsewhere; then these are its particulars there.
    fn elsewhere(
        &self,
        texts: &mut Texts,
        version: Version,
        words: &[u8],
        to: &mut Particulars,
    ) -> Result<Option<PlacedCall<'_>>, Memory>
        requires { to.old ≡ no_details }
        ensures { IfOk result (λ found. IfSome found (λ found. IsMadeAs self.now version words.now found.what found.requests found.from.now to.new)) }
    {
        if !self.is_of(version) {
            return Ok(None);
        }
        if !are_alike(
            texts,
            self.parts.as_slice(),
            self.words.as_slice(),
            words,
            to,
        )? {
            return Ok(None);
        }
        Ok(Some(PlacedCall {
            what: self.what,
            requests: self.from.requests(),
            from: self.from.numbers(),
        }))
    }
}

/// Whether it is this request.
fn is_request(own: Option<&Name>, request: Option<&Name>) -> bool
    ensures { result ≡ true → option_copied own.entry ≡ option_copied request.entry }
{
    match (own, request) {
        (Some(own), Some(request)) => own == request,
        (None, None) => true,
        _ => false,
    }
}

/// Whether a line of these words has the form.
fn is_of_form(version: Version, words: &[u8], form: CallForm) -> bool
    ensures { result ≡ true → (verb : List ℕ) × (own : List (List ℕ)) × (words_in words.now ≡ verb ∷ own) × (form_of version verb own ≡ Ok (form_of_call form)) }
{
    let mut rest = tokens(words);
    let Some(verb) = rest.next() else {
        return false;
    };
    match form_of(version, verb.text, first_of(rest)) {
        Ok(found) => form.line_form() == found,
        Err(_) => false,
    }
}

/// The first word that is left, if there is one.
fn first_of<'a>(rest: TokenIter<'a>) -> Option<&'a [u8]>
    ensures { MatchOption result (texts rest.entry ≡ []) (λ first. (more : List (List ℕ)) × (texts rest.entry ≡ first.now ∷ more)) }
{
    let mut rest = rest;
    match rest.next() {
        Some(first) => Some(first.text),
        None => None,
    }
}

/// Whether the words are other words that are known, but for the particulars that stand in those; then these are theirs.
fn are_alike(
    texts: &mut Texts,
    parts: &[PartAt],
    own: &[u8],
    words: &[u8],
    found: &mut Particulars,
) -> Result<bool, Memory>
    requires fit { Fit parts.now own.now }
    requires none { found.old ≡ no_details }
    ensures { IfOk result (λ is. is ≡ true → AreAlike parts.now own.now words.now found.new) }
{
    let mut known = own;
    let mut rest = words;
    for i in 0..parts.len() {
        let part = parts[i];
        let Some(next) = part_end(texts, part, known, rest, found)? else {
            return Ok(false);
        };
        known = behind_part(part, known);
        rest = behind(rest, next);
    }
    Ok(is_same(known, rest))
}

/// Where the particular ends in a text that stands at this place among those words that are known, if the same words stand before
/// it; it is taken.
#[inline]
fn part_end(
    texts: &mut Texts,
    part: PartAt,
    known: &[u8],
    text: &[u8],
    found: &mut Particulars,
) -> Result<Option<usize>, Memory>
    requires before { part.before ≤ length known.now }
    requires low { IsLow part.part }
    ensures within { IfOk result (λ next. IfSome next (λ next. next ≤ length text.now)) }
    ensures taken { IfOk result (λ next. IfSome next (λ next. (said : Details) × HasPart part known.now text.now said (drop next text.now) × (found.new ≡ joined found.old said))) }
{
    let at = part.before;
    if text.len() < at || !begin_alike(known, text, at) {
        return Ok(None);
    }
    match part_len(texts, part.part, behind(text, at), found)? {
        Some(len) => Ok(Some(at + len)),
        None => Ok(None),
    }
}

/// Whether two texts begin with the same bytes, so many of them: mostly one, a blank between two particulars.
#[inline]
fn begin_alike(own: &[u8], other: &[u8], len: usize) -> bool
    requires own { len ≤ length own.now }
    requires other { len ≤ length other.now }
    ensures { result ≡ true → take len other.now ≡ take len own.now }
{
    if len == 1 {
        own[0] == other[0]
    } else {
        is_same(&own[..len], &other[..len])
    }
}

/// What stands behind the particular that stands at this place among words that are known.
#[inline]
fn behind_part(part: PartAt, known: &[u8]) -> &[u8]
    requires { part.before + part.len ≤ length known.now }
    ensures { result.now ≡ drop (part.before + part.len) known.now }
{
    behind(known, part.before + part.len)
}

/// How many bytes the first word of a text has, if it is such a particular, which is taken.
#[inline]
fn part_len(
    texts: &mut Texts,
    part: Part,
    text: &[u8],
    found: &mut Particulars,
) -> Result<Option<usize>, Memory>
    requires { IsLow part }
    ensures within { IfOk result (λ len. IfSome len (λ len. len ≤ length text.now)) }
    ensures taken { IfOk result (λ len. IfSome len (λ len. (said : Details) × IsPartWord part (take len text.now) said × (found.new ≡ joined found.old said))) }
{
    match part {
        Part::Number(limit) => Ok(number_len(limit, text, found)),
        Part::Name => name_len(texts, text, found),
        Part::Request => request_len(texts, text, found),
    }
}

/// How many bytes the first word of a text has, if it is a number up to this, which is taken.
#[inline]
fn number_len(limit: u64, text: &[u8], found: &mut Particulars) -> Option<usize>
    requires { limit ≤ SPACE }
    ensures within { IfSome result (λ len. len ≤ length text.now) }
    ensures taken { IfSome result (λ len. (said : Details) × IsPartWord (part.Number limit) (take len text.now) said × (found.new ≡ joined found.old said)) }
{
    let front = front_digits(text);
    if front.len > 0 && ends_word(text, front.len) && front.number <= limit {
        return room(found.take_number(front.number), front.len);
    }
    word_number_len(limit, text, found)
}

/// Whether a word that stands before a position of a text ends there.
#[inline]
fn ends_word(text: &[u8], at: usize) -> bool {
    match text.get(at) {
        Some(byte) => is_blank(*byte),
        None => true,
    }
}

/// How many bytes the first word of a text has, if it is a number up to this, which is taken, in whatever way it is written.
#[inline(never)]
fn word_number_len(limit: u64, text: &[u8], found: &mut Particulars) -> Option<usize>
    requires { limit ≤ SPACE }
    ensures within { IfSome result (λ len. len ≤ length text.now) }
    ensures taken { IfSome result (λ len. (said : Details) × IsPartWord (part.Number limit) (take len text.now) said × (found.new ≡ joined found.old said)) }
{
    let len = word_len(text);
    if takes_number(limit, &text[..len], found) {
        Some(len)
    } else {
        None
    }
}

/// Takes the number of a field, and says whether it is one up to this.
#[inline]
fn takes_number(limit: u64, text: &[u8], found: &mut Particulars) -> bool
    requires { limit ≤ SPACE }
    ensures { result ≡ true → (said : Details) × Says (part.Number limit) text.now said × (found.new ≡ joined found.old said) }
{
    match natural(text, 0, limit) {
        Ok(number) => found.take_number(number),
        Err(_) => false,
    }
}

/// How many bytes the first word of a text has, if it is a name, which is taken: mostly one that came before.
#[inline]
fn name_len(
    texts: &mut Texts,
    text: &[u8],
    found: &mut Particulars,
) -> Result<Option<usize>, Memory>
    ensures within { IfOk result (λ len. IfSome len (λ len. len ≤ length text.now)) }
    ensures taken { IfOk result (λ len. IfSome len (λ len. (said : Details) × IsPartWord part.Name (take len text.now) said × (found.new ≡ joined found.old said))) }
{
    if let Some(name) = texts.name_before(text)? {
        let len = name.bytes().len();
        if ends_word(text, len) {
            return Ok(room(found.take_name(name), len));
        }
    }
    word_name_len(texts, text, found)
}

/// The same, where none that came before stands there.
#[inline(never)]
fn word_name_len(
    texts: &mut Texts,
    text: &[u8],
    found: &mut Particulars,
) -> Result<Option<usize>, Memory>
    ensures within { IfOk result (λ len. IfSome len (λ len. len ≤ length text.now)) }
    ensures taken { IfOk result (λ len. IfSome len (λ len. (said : Details) × IsPartWord part.Name (take len text.now) said × (found.new ≡ joined found.old said))) }
{
    let len = word_len(text);
    match texts.name(&text[..len]) {
        Ok(name) => Ok(room(found.take_name(name), len)),
        Err(ParseError::Memory) => Err(Memory),
        Err(_) => Ok(None),
    }
}

/// The same of the name of a request.
#[inline]
fn request_len(
    texts: &mut Texts,
    text: &[u8],
    found: &mut Particulars,
) -> Result<Option<usize>, Memory>
    ensures within { IfOk result (λ len. IfSome len (λ len. len ≤ length text.now)) }
    ensures taken { IfOk result (λ len. IfSome len (λ len. (said : Details) × IsPartWord part.Request (take len text.now) said × (found.new ≡ joined found.old said))) }
{
    let len = word_len(text);
    match texts.request(&text[..len]) {
        Ok(name) => Ok(room(found.take_request(name), len)),
        Err(ParseError::Memory) => Err(Memory),
        Err(_) => Ok(None),
    }
}

/// The length, if there was room.
#[inline]
fn room(was: bool, len: usize) -> Option<usize>
    ensures { IfSome result (λ same. (was ≡ true) × (same ≡ len)) }
{
    if was { Some(len) } else { None }
}
