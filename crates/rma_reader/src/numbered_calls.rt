//! The calls of a log, and the numbers of what they share.
ghost use Rattle.std.specs.Prelude.{◌≡◌, ◌+◌, ◌<◌, ◌^◌, ◌++◌, ◌∷◌, [], length, slice_get, IfOk, IfErr, IfSome, OnOk, None, Ok, Some, option_map, true};
ghost use Rattle.std.specs.Option.{option_and_then};
ghost use Rattle.rma_call.specs.declared.what.What.{What};
ghost use Rattle.rma_call.specs.declared.what.What.TheVariants.{Sync};
ghost use Rattle.rma_call.specs.Call.{no_calls};
ghost use Rattle.rma_field.specs.Sites.{site};
ghost use Rattle.rma_field.specs.Steps.{Fails, Gives};
ghost use Rattle.rma_form.specs.Lines.{site_of};
ghost use Rattle.rma_reader.specs.Reading.{IsPlaced};
ghost use Rattle.rma_reader.specs.Sites.{IsNumbered, IsSite, IsSiteOf};
ghost use Rattle.rma_reader.specs.inside.Tables.{AddsSites, AddsWhats};

use crate::foreseen_sites::ForeseenSites;
use crate::shared_sites::SharedSites;
use crate::site_slots::{PROBES, SiteSlots};
use rma_base::{FormReason, LineNo, Memory, NameError, Site, is_same};
use rma_call::{CallList, Placement, SyncCall, What};
use rma_known::key_of;
use rma_parse::{ParseError, ParseFault};
use std::alloc::Global;
use std::marker::Model;

/// Where there are fewer slots, what sites are looked up in is near without being brought.
const FAR: usize = 2_048;

/// The calls of a log. What is read of a line has the numbers of their tables.
#[derive(Drop)]
pub(crate) struct NumberedCalls {
    /// The calls.
    list: CallList,
    /// How many sites they have.
    sites: u32,
    /// The numbers of these.
    slots: SiteSlots,
    /// The sites of all logs of the run.
    shared: SharedSites,
    /// The sites of the next lines, most likely.
    foreseen: ForeseenSites,
}

impl Model for NumberedCalls {
    ghost use Rattle.std.specs.Prelude.{◌≡◌, length};
    ghost use Rattle.rma_call.specs.Call.{CallTable};

    ghost Value = { CallTable };

    ghost view = { λ calls. calls.list };

    ghost invariant = { λ calls. calls.sites ≡ length calls.list.sites };
}

impl NumberedCalls {
    /// No calls. The sites of all logs are these.
    pub(crate) fn new(alloc: Global, shared: SharedSites) -> NumberedCalls
        ensures { result ≡ no_calls }
    {
        NumberedCalls {
            list: CallList::new(alloc),
            sites: 0,
            slots: SiteSlots::new(alloc),
            shared,
            foreseen: ForeseenSites::new(),
        }
    }

    /// The calls.
    #[inline]
    pub(crate) fn list(&self) -> &CallList
        ensures { result.now ≡ self.now }
    {
        &self.list
    }

    /// Brings near what the sites of the lines of this piece of the log are looked up in.
    pub(crate) fn prefetch(&mut self, piece: &[u8])
        ensures { self.new ≡ self.old }
    {
        if self.slots.len() < FAR {
            self.foreseen.clear();
        } else {
            self.foreseen
                .foresee(piece, &self.slots, &self.list, self.sites);
        }
    }

    /// The calls, where no more are read.
    pub(crate) fn into_list(self) -> CallList
        ensures { result ≡ self }
    {
        self.list
    }

    /// Appends the call of these numbers.
    #[inline]
    pub(crate) fn push(
        &mut self,
        line: LineNo,
        site: Option<u32>,
        what: u32,
        request: Option<u32>,
    ) -> Result<(), Memory>
        requires site { IfSome site (λ number. number < length self.old.sites) }
        requires what { what < length self.old.whats }
        requires request { IfSome request (λ number. number + 1 < 2 ^ 32) }
        ensures ok { OnOk result ((value : What) → slice_get self.old.whats what ≡ Some value → self.new ≡ record self.old {
          calls = self.old.calls ++ record { line = line; site = option_and_then (slice_get self.old.sites) site; what = value; request = request } ∷ [];
        }) }
        ensures whats { self.new.whats ≡ self.old.whats }
    {
        self.list.push(line, site, what, request)
    }

    /// Gives a number to what calls do.
    #[inline]
    pub(crate) fn add_what(&mut self, what: What) -> Result<u32, Memory>
        ensures number { IfOk result (λ number. slice_get self.new.whats number ≡ Some what) }
        ensures adds { AddsWhats self.old self.new }
    {
        self.list.add_what(what)
    }

    /// The same of a call that accesses no memory.
    #[inline]
    pub(crate) fn add_sync(&mut self, call: SyncCall) -> Result<u32, Memory>
        ensures number { IfOk result (λ number. slice_get self.new.whats number ≡ Some (Sync call)) }
        ensures adds { AddsWhats self.old self.new }
    {
        self.list.add_sync(call)
    }

    /// Gives a number to an access that the access of a number makes elsewhere, where that is known by itself.
    #[inline]
    pub(crate) fn add_placed(&mut self, what: u32, place: &Placement) -> Result<Option<u32>, Memory>
        requires { what < length self.old.whats }
        ensures number { IfOk result (λ number. IfSome number (IsPlaced self.old.whats self.new.whats what place.now)) }
        ensures none { result ≡ Ok None → self.new ≡ self.old }
        ensures adds { AddsWhats self.old self.new }
    {
        self.list.add_placed(what, place)
    }

    /// The number of the site of this text, if there is one.
    #[inline]
    pub(crate) fn site_at(
        &mut self,
        alloc: Global,
        text: Option<&[u8]>,
    ) -> Result<Option<u32>, ParseError>
        ensures ok { IfOk result (λ number. IsSiteOf self.new (option_map (λ text. text.now) text.entry) number) }
        ensures err { IfErr result (λ error. Fails error (site_of (option_map (λ text. text.now) text.entry))) }
        ensures adds { AddsSites self.old self.new }
    {
        match text {
            Some(text) => Ok(Some(self.site(alloc, text)?)),
            None => Ok(None),
        }
    }

    /// The number of the site, if there is one.
    pub(crate) fn number_site(
        &mut self,
        alloc: Global,
        site: Option<Site>,
    ) -> Result<Option<u32>, Memory>
        ensures site { IfOk result (λ number. IsSite self.new number site) }
        ensures adds { AddsSites self.old self.new }
    {
        let Some(site) = site else {
            return Ok(None);
        };
        match self.site(alloc, site.bytes()) {
            Ok(number) => Ok(Some(number)),
            Err(_) => Err(Memory),
        }
    }

    /// The number of the site of this text.
    #[inline]
    fn site(&mut self, alloc: Global, text: &[u8]) -> Result<u32, ParseError>
        ensures ok { IfOk result (λ number. IsNumbered self.new text.now number) }
        ensures err { IfErr result (λ error. Fails error (site text.now)) }
        ensures adds { AddsSites self.old self.new }
    {
        match self.foreseen(text) {
            Some(number) => Ok(number),
            None => self.looked_up(alloc, text),
        }
    }

    /// The number of the site of this text, if it is the one that is foreseen.
    #[inline]
    fn foreseen(&mut self, text: &[u8]) -> Option<u32>
        ensures number { IfSome result (λ number. IsNumbered self.new text.now number) }
        ensures same { self.new ≡ self.old }
    {
        match self.foreseen.next() {
            Some(number) if self.has(number, text) => Some(number),
            _ => None,
        }
    }

    /// The number of the site of this text, which is not foreseen.
    #[inline(never)]
    fn looked_up(&mut self, alloc: Global, text: &[u8]) -> Result<u32, ParseError>
        ensures ok { IfOk result (λ number. IsNumbered self.new text.now number) }
        ensures err { IfErr result (λ error. Fails error (site text.now)) }
        ensures adds { AddsSites self.old self.new }
    {
        let key = key_of(text);
        match self.known(key, text) {
            Some(number) => Ok(number),
            None => self.new_site(alloc, key, text),
        }
    }

    /// The number of the site of this text, of this key, if it is known.
    #[inline]
    fn known(&self, key: u64, text: &[u8]) -> Option<u32>
        ensures { IfSome result (λ number. IsNumbered self.now text.now number) }
    {
        for step in 0..PROBES {
            let slot = self.slots.get(key, step);
            if slot.is_free() {
                return None;
            }
            match slot.number_for(key) {
                Some(number) if self.has(number, text) => return Some(number),
                _ => {}
            }
        }
        None
    }

    /// Whether a site has this number, and this text.
    #[inline]
    fn has(&self, number: u32, text: &[u8]) -> bool
        ensures { result ≡ true → IsNumbered self.now text.now number }
    {
        number < self.sites && is_same(self.list.site(number).bytes(), text)
    }

    /// The number of a site that is not known.
    #[inline(never)]
    fn new_site(&mut self, alloc: Global, key: u64, text: &[u8]) -> Result<u32, ParseError>
        ensures ok { IfOk result (λ number. IsNumbered self.new text.now number) }
        ensures err { IfErr result (λ error. Fails error (site text.now)) }
        ensures adds { AddsSites self.old self.new }
    {
        let site = self.shared_site(alloc, key, text)?;
        match self.add_site(alloc, key, site) {
            Ok(number) => Ok(number),
            Err(Memory) => Err(ParseError::Memory),
        }
    }

    /// Gives a number to a site, whose text has this key.
    fn add_site(&mut self, alloc: Global, key: u64, site: Site) -> Result<u32, Memory>
        ensures number { IfOk result (λ number. slice_get self.new.sites number ≡ Some site) }
        ensures adds { AddsSites self.old self.new }
    {
        let Some(sites) = self.sites.checked_add(1) else {
            return Err(Memory);
        };
        let number = self.list.add_site(site)?;
        self.sites = sites;
        self.keep(alloc, key, number)?;
        Ok(number)
    }

    /// Keeps the number of a site, whose text has this key.
    fn keep(&mut self, alloc: Global, key: u64, number: u32) -> Result<(), Memory>
        ensures { self.new ≡ self.old }
    {
        if self.sites as usize > self.slots.len() / 2 {
            self.slots = doubled(alloc, &self.slots, &self.list, self.sites)?;
        } else {
            self.slots.keep(key, number);
        }
        Ok(())
    }

    /// The site of this text, of this key, which all logs of the run share.
    fn shared_site(&self, alloc: Global, key: u64, text: &[u8]) -> Result<Site, ParseError>
        ensures { Gives result (site text.now) }
    {
        match self.shared.site(key, text) {
            Ok(Some(site)) => Ok(site),
            Ok(None) => self.share(alloc, key, text),
            Err(Memory) => Err(ParseError::Memory),
        }
    }

    /// The site of this text, which no log had before.
    fn share(&self, alloc: Global, key: u64, text: &[u8]) -> Result<Site, ParseError>
        ensures { Gives result (site text.now) }
    {
        let site = new_site(alloc, text)?;
        match self.shared.keep(key, &site) {
            Ok(()) => Ok(site),
            Err(Memory) => Err(ParseError::Memory),
        }
    }
}

/// The site of this text.
fn new_site(alloc: Global, text: &[u8]) -> Result<Site, ParseError>
    ensures { Gives result (site text.now) }
{
    match Site::new(alloc, text) {
        Ok(site) => Ok(site),
        Err(NameError::Bad) => Err(ParseError::Fault(ParseFault {
            reason: FormReason::BadName,
        })),
        Err(NameError::Memory) => Err(ParseError::Memory),
    }
}

/// Twice as many slots as these, with the numbers of the sites of a list, which has so many.
fn doubled(
    alloc: Global,
    slots: &SiteSlots,
    list: &CallList,
    sites: u32,
) -> Result<SiteSlots, Memory>
    requires { sites ≡ length list.now.sites }
{
    let mut slots = slots.doubled(alloc)?;
    for number in 0..sites {
        slots.keep(key_of(list.site(number).bytes()), number);
    }
    Ok(slots)
}
