//! Reading the lines of a log one by one.
ghost use Rattle.std.specs.Prelude.{◌≡◌, ℕ, ◌+◌, ◌<◌, ◌^◌, List, [], length, option_map, slice_get, IfOk, IfSome, OnOk, true, false, Contains, Ok, Err, Option, Some, None};
ghost use Rattle.std.specs.Option.{option_copied};
ghost use Rattle.rma_base.specs.declared.version.Version.{Version};
ghost use Rattle.rma_lex.specs.Content.{content, number};
ghost use Rattle.rma_lex.specs.Line.{lines};
ghost use Rattle.rma_lex.specs.Cutting.{Represents};
ghost use Rattle.rma_call.specs.declared.what.What.{What};
ghost use Rattle.rma_call.specs.declared.what.What.TheVariants.{Sync};
ghost use Rattle.rma_form.specs.declared.event.Event.{Event};
ghost use Rattle.rma_form.specs.declared.event.Event.TheVariants.{Header, End, Call, Datatype, Rma, Local};
ghost use Rattle.rma_known.specs.Elsewhere.{IsKnownElsewhere, no_details};
ghost use Rattle.rma_reader.specs.Sites.{IsSite};
ghost use Rattle.rma_log.specs.Ends.{IsEnd};
ghost use Rattle.rma_log.specs.declared.reader.Reader.{Reader};
ghost use Rattle.rma_log.specs.Logs.{Checked};
ghost use Rattle.rma_log.specs.Calls.{call_with};
ghost use Rattle.rma_log.specs.inside.Known.{StatesAccess, StatesWhat};
ghost use Rattle.rma_judge.specs.inside.CallEvent.{IsCallOf};
ghost use Rattle.rma_elsewhere.specs.Elsewhere.{IsStatedBy};
ghost use Rattle.rma_log.specs.inside.Reading.{Adds, Appends, HasAdded, HasRead, IsReading, Reads, ReadsNext};

use crate::fault::{BookEnd, FormFault};
use rma_base::{FormReason, LineNo, Memory, Name, Rank, Version};
use rma_call::{Placement, RankCalls, SyncCall, What, WhatRef};
use rma_elsewhere::{
    access_elsewhere, form_of_access, form_of_local, form_of_sync, place_elsewhere, sync_elsewhere,
};
use rma_field::{ParseError, Texts};
use rma_form::{Event, LocalLine, RmaLine, TypeLine};
use rma_judge::{Book, Judged, JudgedAccess};
use rma_lex::{LexFault, Line, LineCutter};
use rma_reader::{CallForm, LineReader, Particulars, PlacedCall, ReadLine, SharedSites, SplitLine};
use std::alloc::Global;

/// What the good lines of a log state, and the first bad one, after which nothing is read.
#[derive(Drop)]
pub struct Reader {
    /// The names of the log.
    pub texts: Texts,
    /// Reads the lines, and keeps their calls.
    pub lines: LineReader,
    /// Judges the events.
    pub book: Book,
    /// The line of the end of the log, where it was read.
    pub end: Option<LineNo>,
    /// The first bad line.
    pub fault: Option<FormFault>,
}

impl Reader {
    /// A reader of the lines of the log of a rank among so many logs, which shares these sites with others.
    ///
    /// # Errors
    ///
    /// `Memory` where memory ran out.
    pub fn new(alloc: Global, rank: Rank, logs: u32, sites: &SharedSites) -> Result<Reader, Memory>
        ensures { IfOk result (λ reader. HasRead rank.0 logs [] reader) }
    {
        Ok(Reader {
            texts: Texts::new(alloc),
            lines: LineReader::new(alloc, sites)?,
            book: Book::new(alloc, rank, logs)?,
            end: None,
            fault: None,
        })
    }

    /// Brings near what the lines of this piece of the log need.
    pub fn prefetch(&mut self, piece: &[u8])
        ensures { self.new ≡ self.old }
    {
        self.lines.prefetch(piece);
    }

    /// Reads the next line.
    fn read(&mut self, found: Result<Line<'_>, LexFault>) -> Result<(), Memory>
        ensures { OnOk result (ReadsNext self.old self.new (number found.entry) (content found.entry)) }
    {
        if self.fault.is_some() {
            return Ok(());
        }
        match found {
            Ok(line) => self.read_text(line.no, line.text),
            Err(fault) => {
                self.refuse(fault.no, fault.reason);
                Ok(())
            }
        }
    }

    // Reads the text of the next line.
    #[inline]
    fn read_text(&mut self, no: LineNo, text: &[u8]) -> Result<(), Memory>
        requires { self.old.fault ≡ None }
        ensures { OnOk result (ReadsNext self.old self.new no.0 (Ok text.now)) }
    {
        let line = self.lines.split(text);
        match self.lines.known(&line) {
            Ok(Some(call)) => self.read_call(no, call.site, call.what, call.request.as_ref()),
            Ok(None) => self.read_other(no, &line),
            Err(ParseError::Fault(fault)) => {
                self.refuse(no, fault.reason);
                Ok(())
            }
            Err(ParseError::Memory) => Err(Memory),
        }
    }

    // Reads the next line, whose words are not known.
    #[inline]
    fn read_other(&mut self, no: LineNo, line: &SplitLine<'_>) -> Result<(), Memory>
        requires { self.old.fault ≡ None }
        ensures { OnOk result (ReadsNext self.old self.new no.0 (Ok line.now.line)) }
    {
        let mut to = Particulars::new();
        match self.add_elsewhere(line, &mut to)? {
            Some(what) => self.read_added(no, line, what, to.request()),
            None => self.read_new(no, line),
        }
    }

    // Reads the next line, whose words state what has this number, with this request.
    #[inline]
    fn read_added(
        &mut self,
        no: LineNo,
        line: &SplitLine<'_>,
        what: u32,
        request: Option<&Name>,
    ) -> Result<(), Memory>
        requires { (old : Reader) × (old.fault ≡ None) × HasAdded old self.old line.now.words what (option_copied request) }
        ensures { OnOk result ((old : Reader) → old.fault ≡ None → HasAdded old self.old line.now.words what (option_copied request.entry) → ReadsNext old self.new no.0 (Ok line.now.line)) }
    {
        match self.lines.site(line) {
            Ok(site) => self.read_call(no, site, what, request),
            Err(ParseError::Fault(fault)) => {
                self.refuse(no, fault.reason);
                Ok(())
            }
            Err(ParseError::Memory) => Err(Memory),
        }
    }

    // Gives a number to what the call of a line does, where it is known from another place; these are its particulars then. Its
    // words are noted. None, where it is not known, or has no number by itself.
    #[inline]
    fn add_elsewhere(
        &mut self,
        line: &SplitLine<'_>,
        to: &mut Particulars,
    ) -> Result<Option<u32>, Memory>
        requires { to.old ≡ no_details }
        ensures added { IfOk result (λ added. IfSome added (λ number. HasAdded self.old self.new line.now.words number to.new.request)) }
        ensures none { result ≡ Ok None → self.new ≡ self.old }
    {
        let Some(found) = self.lines.elsewhere(&mut self.texts, line, to)? else {
            return Ok(None);
        };
        let PlacedCall {
            what,
            requests,
            from,
        } = found;
        match self.lines.what(what) {
            WhatRef::Rma(call) => match place_elsewhere(requests, call, from, to) {
                Some(place) => self.add_access(line, what, &place),
                None => Ok(None),
            },
            WhatRef::Local(call) => {
                let alloc = self.book.allocator();
                match access_elsewhere(alloc, requests, call, from, to)? {
                    Some(call) => self.add_made(line, What::Local(call), None),
                    None => Ok(None),
                }
            }
            _ => self.add_sync(line, what, requests, to),
        }
    }

    // The same of a call that accesses no memory.
    #[inline]
    fn add_sync(
        &mut self,
        line: &SplitLine<'_>,
        what: u32,
        requests: bool,
        to: &mut Particulars,
    ) -> Result<Option<u32>, Memory>
        requires known { (from : List ℕ) × IsKnownElsewhere self.old.lines.known self.old.lines.version line.now.words what requests from to.old }
        requires within { what < length self.old.lines.calls.whats }
        ensures added { IfOk result (λ added. IfSome added (λ number. HasAdded self.old self.new line.now.words number to.new.request)) }
        ensures none { result ≡ Ok None → self.new ≡ self.old }
    {
        let alloc = self.book.allocator();
        match sync_elsewhere(alloc, requests, self.lines.what(what), to)? {
            Some(call) => self.add_call(line, call, to.request()),
            None => Ok(None),
        }
    }

    // Gives a number to the call that the words of a line state, which accesses no memory, with this request. They are noted.
    #[inline]
    fn add_call(
        &mut self,
        line: &SplitLine<'_>,
        call: SyncCall,
        request: Option<&Name>,
    ) -> Result<Option<u32>, Memory>
        requires { StatesWhat self.old.lines line.now.words (Sync call) (option_copied request) }
        ensures added { IfOk result (λ added. IfSome added (λ number. HasAdded self.old self.new line.now.words number (option_copied request.entry))) }
        ensures none { result ≡ Ok None → self.new ≡ self.old }
    {
        let number = self.lines.add_sync(call)?;
        self.lines.note(line, number, request, false)?;
        Ok(Some(number))
    }

    // Gives a number to what the words of a line state, with this request. They are noted.
    #[inline]
    fn add_made(
        &mut self,
        line: &SplitLine<'_>,
        what: What,
        request: Option<&Name>,
    ) -> Result<Option<u32>, Memory>
        requires { StatesWhat self.old.lines line.now.words what (option_copied request) }
        ensures added { IfOk result (λ added. IfSome added (λ number. HasAdded self.old self.new line.now.words number (option_copied request.entry))) }
        ensures none { result ≡ Ok None → self.new ≡ self.old }
    {
        let number = self.add(Some(line), what, request, false)?;
        Ok(Some(number))
    }

    // The same of the access of a number, made at a place.
    #[inline]
    fn add_access(
        &mut self,
        line: &SplitLine<'_>,
        what: u32,
        place: &Placement,
    ) -> Result<Option<u32>, Memory>
        requires { StatesAccess self.old.lines line.now.words what place.now }
        ensures added { IfOk result (λ added. IfSome added (λ number. HasAdded self.old self.new line.now.words number None)) }
        ensures none { result ≡ Ok None → self.new ≡ self.old }
    {
        let Some(number) = self.lines.add_placed(what, place)? else {
            return Ok(None);
        };
        self.lines.note(line, number, None, false)?;
        Ok(Some(number))
    }

    // Reads the next line, which may be any.
    #[inline(never)]
    fn read_new(&mut self, no: LineNo, line: &SplitLine<'_>) -> Result<(), Memory>
        requires { self.old.fault ≡ None }
        ensures { OnOk result (ReadsNext self.old self.new no.0 (Ok line.now.line)) }
    {
        match self.lines.read(&mut self.texts, line) {
            Ok(None) => Ok(()),
            Ok(Some(read)) => self.read_line(no, line, read),
            Err(ParseError::Fault(fault)) => {
                self.refuse(no, fault.reason);
                Ok(())
            }
            Err(ParseError::Memory) => Err(Memory),
        }
    }

    // Judges the next line, and takes it where it is good.
    #[inline]
    fn read_line(&mut self, no: LineNo, line: &SplitLine<'_>, read: ReadLine) -> Result<(), Memory>
        requires fault { self.old.fault ≡ None }
        requires site { (text : Option (List ℕ)) × IsSite self.old.lines.calls read.site text }
        requires words { read.by_words ≡ true → IsStatedBy self.old.lines.version line.now.words read.event }
        ensures { OnOk result ((text : Option (List ℕ)) → IsSite self.old.lines.calls read.site text → Reads self.old self.new no (record { event = read.event; site = text })) }
    {
        let ReadLine {
            event,
            site,
            by_words,
        } = read;
        let words = if by_words { Some(line) } else { None };
        match event {
            Event::Header {
                version,
                rank,
                size,
            } => self.read_header(no, version, rank, size),
            Event::End => {
                self.read_end(no);
                Ok(())
            }
            Event::Call { call, request } => {
                self.read_new_call(no, words, site, call, request.as_ref())
            }
            Event::Datatype(line) => self.read_datatype(no, line),
            Event::Rma { line, request } => {
                self.read_rma(no, words, site, &line, request.as_ref())
            }
            Event::Local(line) => self.read_local(no, words, site, &line),
        }
    }

    // Judges a header, and takes it where it is good: lines are read in its version from now on.
    fn read_header(
        &mut self,
        no: LineNo,
        version: Version,
        rank: Rank,
        size: u32,
    ) -> Result<(), Memory>
        requires { self.old.fault ≡ None }
        ensures { OnOk result ((site : Option (List ℕ)) → Reads self.old self.new no (record { event = Header version rank size; site = site })) }
    {
        match self.book.begin(rank, size) {
            Some(reason) => self.refuse(no, reason),
            None => self.lines.set_version(version),
        }
        Ok(())
    }

    // Judges the end of the log, and takes it where it is good.
    fn read_end(&mut self, no: LineNo)
        requires { self.old.fault ≡ None }
        ensures { (site : Option (List ℕ)) → Reads self.old self.new no (record { event = End; site = site }) }
    {
        match self.book.end() {
            Some(reason) => self.refuse(no, reason),
            None => self.end = Some(no),
        }
    }

    // Judges a line that speaks of a datatype, and takes it where it is good: what accesses do is not known any more.
    fn read_datatype(&mut self, no: LineNo, line: TypeLine) -> Result<(), Memory>
        requires { self.old.fault ≡ None }
        ensures { OnOk result ((site : Option (List ℕ)) → Reads self.old self.new no (record { event = Datatype line; site = site })) }
    {
        match self.book.datatype(line)? {
            Some(reason) => self.refuse(no, reason),
            None => self.lines.forget_accesses(),
        }
        Ok(())
    }

    // Judges a call that accesses no memory, and takes it where it is good. Its words are noted, if they state it by themselves.
    fn read_new_call(
        &mut self,
        no: LineNo,
        words: Option<&SplitLine<'_>>,
        site: Option<u32>,
        call: SyncCall,
        request: Option<&Name>,
    ) -> Result<(), Memory>
        requires fault { self.old.fault ≡ None }
        requires site { (text : Option (List ℕ)) × IsSite self.old.lines.calls site text }
        requires words { IfSome words (λ line. IsStatedBy self.old.lines.version line.now.words (Call call (option_copied request))) }
        ensures { OnOk result ((text : Option (List ℕ)) → IsSite self.old.lines.calls site text → Reads self.old self.new no (record { event = Call call (option_copied request.entry); site = text })) }
    {
        let form = form_of_sync(&call);
        let what = self.add_placed(words, form, What::Sync(call), request, true)?;
        self.read_call(no, site, what, request)
    }

    // Judges a call that accesses the part of a target, and takes it where it is good.
    fn read_rma(
        &mut self,
        no: LineNo,
        words: Option<&SplitLine<'_>>,
        site: Option<u32>,
        line: &RmaLine,
        request: Option<&Name>,
    ) -> Result<(), Memory>
        requires fault { self.old.fault ≡ None }
        requires site { (text : Option (List ℕ)) × IsSite self.old.lines.calls site text }
        requires words { IfSome words (λ own. IsStatedBy self.old.lines.version own.now.words (Rma line.now (option_copied request))) }
        ensures { OnOk result ((text : Option (List ℕ)) → IsSite self.old.lines.calls site text → Reads self.old self.new no (record { event = Rma line.now (option_copied request.entry); site = text })) }
    {
        match self.book.access(line, request)? {
            JudgedAccess::Bad(reason) => {
                self.refuse(no, reason);
                Ok(())
            }
            JudgedAccess::Good {
                what,
                request: made,
            } => {
                let form = form_of_access(&line.access);
                self.take(no, words, site, form, what, request, made)
            }
        }
    }

    // Judges a local access, and takes it where it is good.
    fn read_local(
        &mut self,
        no: LineNo,
        words: Option<&SplitLine<'_>>,
        site: Option<u32>,
        line: &LocalLine,
    ) -> Result<(), Memory>
        requires fault { self.old.fault ≡ None }
        requires site { (text : Option (List ℕ)) × IsSite self.old.lines.calls site text }
        requires words { IfSome words (λ own. IsStatedBy self.old.lines.version own.now.words (Local line.now)) }
        ensures { OnOk result ((text : Option (List ℕ)) → IsSite self.old.lines.calls site text → Reads self.old self.new no (record { event = Local line.now; site = text })) }
    {
        match self.book.local(line)? {
            JudgedAccess::Bad(reason) => {
                self.refuse(no, reason);
                Ok(())
            }
            JudgedAccess::Good { what, request } => {
                let form = form_of_local(line.access);
                self.take(no, words, site, form, what, None, request)
            }
        }
    }

    // Appends an access of this form that does this, whose request has this name and this number. The words of its line are
    // noted, if they state it by themselves.
    #[inline]
    fn take(
        &mut self,
        no: LineNo,
        words: Option<&SplitLine<'_>>,
        site: Option<u32>,
        form: CallForm,
        what: What,
        request: Option<&Name>,
        number: Option<u32>,
    ) -> Result<(), Memory>
        requires site { (text : Option (List ℕ)) × IsSite self.old.lines.calls site text }
        requires number { IfSome number (λ number. number + 1 < 2 ^ 32) }
        ensures { OnOk result ((text : Option (List ℕ)) → IsSite self.old.lines.calls site text
            → Appends self.old self.new (option_map (λ line. line.now.words) words.entry) (option_copied request.entry) (call_with no text number what)) }
    {
        let form = if request.is_none() { Some(form) } else { None };
        let what = self.add_placed(words, form, what, request, false)?;
        self.lines.push(no, site, what, number)
    }

    // Gives a number to what a call of this form does, whose request has this name. The words of its line are noted, if they
    // state it by themselves; so is what they have in common with those of the same call elsewhere, if it has such a form. It is
    // said whether they state it whatever the datatypes are.
    #[inline]
    fn add_placed(
        &mut self,
        words: Option<&SplitLine<'_>>,
        form: Option<CallForm>,
        what: What,
        request: Option<&Name>,
        lasts: bool,
    ) -> Result<u32, Memory>
        ensures number { IfOk result (λ number. slice_get self.new.lines.calls.whats number ≡ Some what) }
        ensures adds { OnOk result (Adds self.old self.new (option_map (λ line. line.now.words) words.entry) what (option_copied request.entry) lasts) }
    {
        let number = self.add(words, what, request, lasts)?;
        if let (Some(line), Some(form)) = (words, form) {
            self.lines
                .note_template(&mut self.texts, line, form, number, request)?;
        }
        Ok(number)
    }

    // Gives a number to what a call does, whose request has this name. The words of its line are noted, if they state it by
    // themselves; it is said whether they do so whatever the datatypes are.
    #[inline]
    fn add(
        &mut self,
        words: Option<&SplitLine<'_>>,
        what: What,
        request: Option<&Name>,
        lasts: bool,
    ) -> Result<u32, Memory>
        ensures number { IfOk result (λ number. slice_get self.new.lines.calls.whats number ≡ Some what) }
        ensures adds { OnOk result (Adds self.old self.new (option_map (λ line. line.now.words) words.entry) what (option_copied request.entry) lasts) }
    {
        let number = self.lines.add_what(what)?;
        if let Some(line) = words {
            self.lines.note(line, number, request, lasts)?;
        }
        Ok(number)
    }

    // Judges a call that does what has this number, and takes it where it is good.
    fn read_call(
        &mut self,
        no: LineNo,
        site: Option<u32>,
        what: u32,
        request: Option<&Name>,
    ) -> Result<(), Memory>
        requires fault { self.old.fault ≡ None }
        requires what { what < length self.old.lines.calls.whats }
        requires site { (text : Option (List ℕ)) × IsSite self.old.lines.calls site text }
        ensures { OnOk result ((does : What) (event : Event) (text : Option (List ℕ)) → slice_get self.old.lines.calls.whats what ≡ Some does → IsCallOf self.old.book.types does (option_copied request.entry) event
            → IsSite self.old.lines.calls site text → Reads self.old self.new no (record { event = event; site = text })) }
    {
        let judged = self.book.call(self.lines.what(what), request)?;
        match judged {
            Judged::Bad(reason) => {
                self.refuse(no, reason);
                Ok(())
            }
            Judged::Good { request } => self.lines.push(no, site, what, request),
        }
    }

    // The line is the first bad one.
    fn refuse(&mut self, line: LineNo, reason: FormReason)
        ensures { self.new ≡ record self.old { fault = Some (record { line = line; reason = reason }) } }
    {
        self.fault = Some(FormFault { line, reason });
    }

    /// All lines were read: their outcome, where this is the line after the last.
    pub fn end(self, after: LineNo) -> BookEnd
        ensures { (rank logs : ℕ) (lines : List Checked) → after.0 ≡ length lines + 1 → HasRead rank logs lines self → IsEnd rank logs lines result }
    {
        match (self.fault, self.end) {
            (Some(fault), _) => BookEnd::Fault(fault),
            (None, None) => BookEnd::Fault(FormFault {
                line: after,
                reason: FormReason::MissingEnd,
            }),
            (None, Some(end)) => {
                let rank = self.book.rank();
                BookEnd::Calls(RankCalls::new(rank, self.lines.into_calls(), end))
            }
        }
    }
}

/// Reads the whole lines that are left.
///
/// # Errors
///
/// `Memory` where memory ran out: nothing is said then of the lines that were read, and the reader is of no more use.
pub fn read_lines(cutter: &mut LineCutter, reader: &mut Reader) -> Result<(), Memory>
    ensures read { OnOk result ((rank logs : ℕ) (text : List ℕ) → IsReading rank logs cutter.old text reader.old → IsReading rank logs cutter.new text reader.new) }
    ensures all { OnOk result ((text : List ℕ) → Represents cutter.new text → cutter.new.closed ≡ true → cutter.new.handed ≡ length (lines text)) }
    ensures none_left { OnOk result (¬ Contains cutter.new.rest 10) }
    ensures closed { cutter.new.closed ≡ cutter.old.closed }
    ensures fed { OnOk result (cutter.new.fed ≡ cutter.old.fed) }
{
    'lines: while read_next(cutter, reader)? {}
    Ok(())
}

// Reads the next line, if a whole one is left, and says whether one was.
fn read_next(cutter: &mut LineCutter, reader: &mut Reader) -> Result<bool, Memory>
    ensures read { OnOk result ((rank logs : ℕ) (text : List ℕ) → IsReading rank logs cutter.old text reader.old → IsReading rank logs cutter.new text reader.new) }
    ensures all { IfOk result (λ more. more ≡ false → (text : List ℕ) → Represents cutter.new text → cutter.new.closed ≡ true → cutter.new.handed ≡ length (lines text)) }
    ensures none_left { IfOk result (λ more. more ≡ false → ¬ Contains cutter.new.rest 10) }
    ensures smaller { IfOk result (λ more. more ≡ true → length cutter.new.rest < length cutter.old.rest) }
    ensures closed { cutter.new.closed ≡ cutter.old.closed }
    ensures fed { OnOk result (cutter.new.fed ≡ cutter.old.fed) }
{
    match cutter.next_line() {
        Some(found) => {
            reader.read(found)?;
            Ok(true)
        }
        None => Ok(false),
    }
}
