//! Reading the lines of one log.
ghost use Rattle.std.specs.Prelude.{◌≡◌, ◌+◌, ◌<◌, ◌^◌, ◌++◌, ◌∷◌, ◌⊎◌, [], length, slice_get, IfOk, IfErr, IfSome, MatchOption, None, Ok, OnOk, Some, false, true};
ghost use Rattle.std.specs.Option.{option_and_then, option_copied};
ghost use Rattle.rma_base.specs.declared.version.Version.TheVariants.{One};
ghost use Rattle.rma_call.specs.declared.what.What.{What};
ghost use Rattle.rma_call.specs.declared.what.What.TheVariants.{Sync};
ghost use Rattle.rma_call.specs.Call.{no_calls, what_of};
ghost use Rattle.rma_form.specs.declared.event.Stated.{Stated};
ghost use Rattle.rma_form.specs.declared.event.Event.{Event};
ghost use Rattle.rma_form.specs.Lines.{reading, site_of, states};
ghost use Rattle.rma_field.specs.Steps.{Fails};
ghost use Rattle.rma_known.specs.Elsewhere.{IsKnownElsewhere, no_details};
ghost use Rattle.rma_known.specs.Known.{Known, IsAmong, IsKnownLine};
ghost use Rattle.rma_known.specs.Split.{IsSplit};
ghost use Rattle.rma_reader.specs.Reading.{Grows, IsPlaced, IsRead};
ghost use Rattle.rma_reader.specs.Sites.{IsSiteOf};
ghost use Rattle.rma_reader.specs.inside.Tables.{Reads};

use crate::numbered_calls::NumberedCalls;
use crate::read_line::{KnownCall, ReadLine};
use crate::shared_sites::SharedSites;
use rma_base::{LineNo, Memory, Name, Version};
use rma_call::{CallList, Placement, SyncCall, What, WhatRef};
use rma_form::{Event, Stated};
use rma_known::{
    CallForm, CallTemplates, KnownLines, Particulars, PlacedCall, Repetition, SplitLine, is_comment,
};
use rma_parse::{ParseError, Texts, parse_line};
use std::alloc::Global;
use std::marker::Model;

/// Reads the lines of one log, and keeps its calls.
#[derive(Drop)]
pub struct LineReader {
    /// The version of the format in which lines are read.
    version: Version,
    /// Where memory is taken.
    alloc: Global,
    /// The lines that come again.
    lines: KnownLines,
    /// How many of them do.
    repetition: Repetition,
    /// The calls that come again elsewhere.
    templates: CallTemplates,
    /// The calls that were appended, with their tables.
    calls: NumberedCalls,
}

impl Model for LineReader {
    ghost use Rattle.std.specs.Prelude.{◌++◌, length};
    ghost use Rattle.rma_known.specs.inside.Templates.{known_of};
    ghost use Rattle.rma_known.specs.inside.Dated.{AreNumbered};
    ghost use Rattle.rma_reader.specs.Reading.{Reading};

    ghost Value = { Reading };

    ghost view = { λ reader. record { version = reader.version; calls = reader.calls; known = reader.lines ++ known_of reader.templates } };

    ghost invariant = { λ reader. AreNumbered (length reader.calls.whats) (reader.lines ++ known_of reader.templates) };
}

impl LineReader {
    /// A reader that read no line yet, of a log that shares these sites with others. It reads lines in the first version of
    /// the format.
    pub fn new(alloc: Global, sites: &SharedSites) -> Result<LineReader, Memory>
        ensures version { IfOk result (λ reader. reader.version ≡ One) }
        ensures calls { IfOk result (λ reader. reader.calls ≡ no_calls) }
        ensures known { IfOk result (λ reader. (known : Known) → IsAmong reader.known known → ⊥) }
    {
        let sites = sites.share()?;
        Ok(LineReader {
            version: Version::One,
            alloc,
            lines: KnownLines::new(alloc)?,
            repetition: Repetition::new(),
            templates: CallTemplates::new(alloc)?,
            calls: NumberedCalls::new(alloc, sites),
        })
    }

    /// Brings near what the sites of the lines of this piece of the log are looked up in. The lines themselves come next; of a long
    /// piece much would be far again by then.
    pub fn prefetch(&mut self, piece: &[u8])
        ensures { self.new ≡ self.old }
    {
        self.calls.prefetch(piece);
    }

    /// Reads lines in this version from now on.
    pub fn set_version(&mut self, version: Version)
        ensures { self.new ≡ record self.old { version = version } }
    {
        self.version = version;
    }

    /// The next line, of this text, as its words and its site.
    #[inline]
    pub fn split<'a>(&mut self, text: &'a [u8]) -> SplitLine<'a>
        ensures line { result.line ≡ text.now }
        ensures same { self.new ≡ self.old }
    {
        let line = SplitLine::new(text);
        if self.repetition.looks_up_next() {
            line.keyed()
        } else {
            line
        }
    }

    /// The call that the line states, where its words are known. Its site stands in the tables then.
    ///
    /// # Errors
    ///
    /// The site is bad, or memory ran out.
    #[inline]
    pub fn known(&mut self, line: &SplitLine<'_>) -> Result<Option<KnownCall>, ParseError>
        ensures call { IfOk result (λ call. IfSome call (λ call. (known : Known) × IsKnownLine self.old.known self.old.version line.now known
            × (call.what ≡ known.what) × (call.request ≡ known.request) × IsSiteOf self.new.calls line.now.site call.site)) }
        ensures within { IfOk result (λ call. IfSome call (λ call. call.what < length self.new.calls.whats)) }
        ensures err { IfErr result (λ error. (known : Known) × IsKnownLine self.old.known self.old.version line.now known × Fails error (site_of line.now.site)) }
        ensures none { result ≡ Ok None → self.new ≡ self.old }
        ensures grows { Grows self.old self.new }
    {
        let text = line.site();
        let Some(known) = self.lines.find(line.key(), self.version, line.words()) else {
            return Ok(None);
        };
        let what = known.what();
        let Ok(request) = known.request() else {
            return Err(ParseError::Memory);
        };
        let site = match self.calls.site_at(self.alloc, text) {
            Ok(site) => site,
            Err(error) => return Err(error),
        };
        self.repetition.note_known();
        Ok(Some(KnownCall {
            what,
            request,
            site,
        }))
    }

    /// The call that is known, where the words of the line are those of it but for its particulars: these are then those of the
    /// line. Names are those of these texts.
    pub fn elsewhere(
        &self,
        texts: &mut Texts,
        line: &SplitLine<'_>,
        to: &mut Particulars,
    ) -> Result<Option<PlacedCall<'_>>, Memory>
        requires { to.old ≡ no_details }
        ensures known { IfOk result (λ found. IfSome found (λ found. IsKnownElsewhere self.now.known self.now.version line.now.words found.what found.requests found.from.now to.new)) }
        ensures within { IfOk result (λ found. IfSome found (λ found. found.what < length self.now.calls.whats)) }
    {
        self.templates.find(texts, self.version, line.words(), to)
    }

    /// The number of the site of the line, if it has one. It stands in the tables then.
    ///
    /// # Errors
    ///
    /// The site is bad, or memory ran out.
    #[inline]
    pub fn site(&mut self, line: &SplitLine<'_>) -> Result<Option<u32>, ParseError>
        ensures split { IsSplit line.now.line line.now.words line.now.site }
        ensures ok { IfOk result (λ site. IsSiteOf self.new.calls line.now.site site) }
        ensures err { IfErr result (λ error. Fails error (site_of line.now.site)) }
        ensures grows { Grows self.old self.new }
    {
        let text = line.site();
        self.calls.site_at(self.alloc, text)
    }

    /// What the line states, by names of these texts. Its site stands in the tables then.
    ///
    /// # Errors
    ///
    /// The first reason for which the line is bad, or that memory ran out.
    pub fn read(
        &mut self,
        texts: &mut Texts,
        line: &SplitLine<'_>,
    ) -> Result<Option<ReadLine>, ParseError>
        ensures ok { IfOk result (λ read. MatchOption read (reading self.old.version line.now.line ≡ Ok None)
            (λ read. (stated : Stated) × (reading self.old.version line.now.line ≡ Ok (Some stated)) × IsRead self.new.calls read stated)) }
        ensures words { IfOk result (λ read. IfSome read (λ read. read.by_words ≡ true → states self.old.version line.now.words (record { event = read.event; site = None }))) }
        ensures err { IfErr result (λ error. Fails error (reading self.old.version line.now.line)) }
        ensures grows { Grows self.old self.new }
    {
        if is_comment(line.line()) {
            return self.read_whole(texts, line);
        }
        match parse_line(texts, self.version, line.words()) {
            Ok(Some(stated)) => {
                let Stated { event, site: own } = stated;
                match own {
                    None => self.read_event(line, event),
                    Some(_) => self.read_whole(texts, line),
                }
            }
            Err(ParseError::Memory) => Err(ParseError::Memory),
            _ => self.read_whole(texts, line),
        }
    }

    /// What the line states whose words state the event.
    #[inline]
    fn read_event(
        &mut self,
        line: &SplitLine<'_>,
        event: Event,
    ) -> Result<Option<ReadLine>, ParseError>
        requires { states self.old.version line.now.words (record { event = event; site = None }) }
        ensures read { Reads self.new.calls self.old.version line.now result }
        ensures grows { Grows self.old self.new }
    {
        let site = match self.calls.site_at(self.alloc, line.site()) {
            Ok(site) => site,
            Err(error) => return Err(error),
        };
        Ok(Some(ReadLine {
            event,
            site,
            by_words: true,
        }))
    }

    /// What the line states, read as one text.
    #[inline(never)]
    fn read_whole(
        &mut self,
        texts: &mut Texts,
        line: &SplitLine<'_>,
    ) -> Result<Option<ReadLine>, ParseError>
        ensures read { Reads self.new.calls self.old.version line.now result }
        ensures grows { Grows self.old self.new }
    {
        let Some(stated) = parse_line(texts, self.version, line.line())? else {
            return Ok(None);
        };
        let Stated { event, site } = stated;
        match self.calls.number_site(self.alloc, site) {
            Ok(site) => Ok(Some(ReadLine {
                event,
                site,
                by_words: false,
            })),
            Err(Memory) => Err(ParseError::Memory),
        }
    }

    /// Notes that the words of a line state a call that does this, so that it is known when they come again. It is said whether
    /// they do so whatever the datatypes are.
    pub fn note(
        &mut self,
        line: &SplitLine<'_>,
        what: u32,
        request: Option<&Name>,
        lasts: bool,
    ) -> Result<(), Memory>
        requires { what < length self.old.calls.whats }
        ensures known { (known : Known) → IsAmong self.new.known known → IsAmong self.old.known known
            ⊎ (known ≡ record { version = self.old.version; words = line.now.words; what = what; request = option_copied request.entry; lasts = lasts }) }
        ensures same { self.new ≡ record self.old { known = self.new.known } }
    {
        let alloc = self.alloc;
        self.lines
            .note(alloc, self.version, line, what, request, lasts)
    }

    /// Notes that the words of a line state a call of this form that does this, and has this request, so that it is known when it
    /// comes again elsewhere, until the datatypes change.
    pub fn note_template(
        &mut self,
        texts: &mut Texts,
        line: &SplitLine<'_>,
        form: CallForm,
        what: u32,
        request: Option<&Name>,
    ) -> Result<(), Memory>
        requires { what < length self.old.calls.whats }
        ensures known { (known : Known) → IsAmong self.new.known known → IsAmong self.old.known known
            ⊎ (known ≡ record { version = self.old.version; words = line.now.words; what = what; request = option_copied request.entry; lasts = false }) }
        ensures same { self.new ≡ record self.old { known = self.new.known } }
    {
        let at = self.calls.list().len();
        self.templates
            .note(texts, self.version, line.words(), form, what, request, at)
    }

    /// The datatypes have changed: calls that depend on them are not known any more.
    pub fn forget_accesses(&mut self)
        ensures among { (known : Known) → IsAmong self.new.known known → IsAmong self.old.known known }
        ensures lasting { (known : Known) → IsAmong self.new.known known → known.lasts ≡ true }
        ensures same { self.new ≡ record self.old { known = self.new.known } }
    {
        self.lines.forget_accesses();
        self.templates.forget();
    }

    /// What calls do that have this number.
    #[inline]
    pub fn what(&self, number: u32) -> WhatRef<'_>
        requires { number < length self.now.calls.whats }
        ensures { slice_get self.now.calls.whats number ≡ Some (what_of result) }
    {
        self.calls.list().what(number)
    }

    /// Gives a number to what a call does.
    ///
    /// # Errors
    ///
    /// `Memory` also where the table is full.
    #[inline]
    pub fn add_what(&mut self, what: What) -> Result<u32, Memory>
        ensures number { IfOk result (λ number. slice_get self.new.calls.whats number ≡ Some what) }
        ensures grows { Grows self.old self.new }
    {
        self.calls.add_what(what)
    }

    /// The same of a call that accesses no memory.
    ///
    /// # Errors
    ///
    /// `Memory` also where the table is full.
    #[inline]
    pub fn add_sync(&mut self, call: SyncCall) -> Result<u32, Memory>
        ensures number { IfOk result (λ number. slice_get self.new.calls.whats number ≡ Some (Sync call)) }
        ensures grows { Grows self.old self.new }
    {
        self.calls.add_sync(call)
    }

    /// Gives a number to an access that the access of a number makes elsewhere, where that is known by itself.
    ///
    /// # Errors
    ///
    /// `Memory` also where the table is full.
    #[inline]
    pub fn add_placed(&mut self, what: u32, place: &Placement) -> Result<Option<u32>, Memory>
        requires { what < length self.old.calls.whats }
        ensures number { IfOk result (λ number. IfSome number (IsPlaced self.old.calls.whats self.new.calls.whats what place.now)) }
        ensures none { result ≡ Ok None → self.new ≡ self.old }
        ensures grows { Grows self.old self.new }
    {
        self.calls.add_placed(what, place)
    }

    /// Appends the call of these numbers.
    #[inline]
    pub fn push(
        &mut self,
        line: LineNo,
        site: Option<u32>,
        what: u32,
        request: Option<u32>,
    ) -> Result<(), Memory>
        requires site { IfSome site (λ number. number < length self.old.calls.sites) }
        requires what { what < length self.old.calls.whats }
        requires request { IfSome request (λ number. number + 1 < 2 ^ 32) }
        ensures ok { OnOk result ((value : What) → slice_get self.old.calls.whats what ≡ Some value → self.new ≡ record self.old {
          calls = record self.old.calls { calls = self.old.calls.calls ++ record { line = line; site = option_and_then (slice_get self.old.calls.sites) site; what = value; request = request } ∷ [] };
        }) }
    {
        self.calls.push(line, site, what, request)
    }

    /// The calls that were appended, with their tables.
    pub fn calls(&self) -> &CallList
        ensures { result.now ≡ self.now.calls }
    {
        self.calls.list()
    }

    /// The same calls.
    pub fn into_calls(self) -> CallList
        ensures { result ≡ self.calls }
    {
        self.calls.into_list()
    }
}
