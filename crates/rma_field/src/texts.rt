//! The names and the sites of one log.
ghost use Rattle.std.specs.Prelude.{◌≡◌, true, Ok, length, take, IfErr, IfOk, IfSome};
ghost use Rattle.rma_field.specs.Kinds.{name_of};
ghost use Rattle.rma_field.specs.Sites.{site};
ghost use Rattle.rma_field.specs.Steps.{Gives};

use crate::number::refused;
use crate::parse_error::ParseError;
use indexmap::IndexMap;
use rma_base::{FormReason, Memory, Name, NameError, Site, is_same};
use std::alloc::Global;
use std::hash::{FoldHasher, Hasher};
use std::marker::Model;

// How many names are at hand: few, so that those of requests, which come and go, stay near.
const AT_HAND: usize = 64;

// How many names are known by their first byte.
const INITIALS: usize = 32;

/// The names and the sites of one log. Each is kept once, so that what comes again takes no memory; the name of a request is
/// kept for a while alone, since a log may have as many as it has lines.
#[derive(Drop)]
pub struct Texts {
    alloc: Global,
    // The names that came last, each in the slot that the key of its text gives: none, or `AT_HAND` of them.
    at_hand: Vec<Option<Name>>,
    // The names of windows and communicators that came last, each in the slot that its first byte gives: none, or `INITIALS`.
    by_initial: Vec<Option<Name>>,
    // Each by the key of its text. Of two texts with one key the first is kept.
    names: IndexMap<u64, Name>,
    sites: IndexMap<u64, Site>,
}

impl Model for Texts {
    ghost Value = { Unit {0} };

    ghost view = { λ texts. tt };
}

impl Texts {
    /// No text came yet.
    pub fn new(alloc: Global) -> Texts {
        Texts {
            alloc,
            at_hand: Vec::new(alloc),
            by_initial: Vec::new(alloc),
            names: IndexMap::new(alloc),
            sites: IndexMap::new(alloc),
        }
    }

    /// Where the texts take their memory.
    pub fn allocator(&self) -> Global {
        self.alloc
    }

    /// The name that came last of those that begin with the same byte, if the text begins with it. A longer name may stand there.
    #[inline]
    pub fn name_before(&self, text: &[u8]) -> Result<Option<Name>, Memory>
        ensures name { IfOk result (λ found. IfSome found (λ name. name_of name ≡ Ok name)) }
        ensures front { IfOk result (λ found. IfSome found (λ name. take (length name) text.now ≡ name)) }
    {
        let Some(first) = text.first() else {
            return Ok(None);
        };
        match self.by_initial.get(slot_of_initial(*first)) {
            Some(Some(known)) if begins_with(text, known.bytes()) => Ok(Some(known.copy()?)),
            _ => Ok(None),
        }
    }

    /// The field as a name.
    pub fn name(&mut self, text: &[u8]) -> Result<Name, ParseError>
        ensures { Gives result (name_of text.now) }
    {
        let name = self.known_name(text)?;
        match self.note_initial(&name) {
            Ok(()) => Ok(name),
            Err(Memory) => Err(ParseError::Memory),
        }
    }

    // A name, which is known by its first byte from now on.
    fn note_initial(&mut self, name: &Name) -> Result<(), Memory> {
        if self.by_initial.is_empty() {
            self.by_initial = no_names(self.alloc, INITIALS)?;
        }
        let Some(first) = name.bytes().first() else {
            return Ok(());
        };
        let at = slot_of_initial(*first);
        if let Some(slot) = self.by_initial.get_mut(at) {
            *slot = Some(name.copy()?);
        }
        Ok(())
    }

    // The field as a name, which is mostly at hand.
    #[inline]
    fn known_name(&mut self, text: &[u8]) -> Result<Name, ParseError>
        ensures { Gives result (name_of text.now) }
    {
        let key = key_of(text);
        match self.at_hand.get(slot_of(key)) {
            Some(Some(known)) if is_same(known.bytes(), text) => copied(known),
            _ => self.kept_name(key, text),
        }
    }

    /// The field as the name of a request.
    #[inline]
    pub fn request(&mut self, text: &[u8]) -> Result<Name, ParseError>
        ensures { Gives result (name_of text.now) }
    {
        let key = key_of(text);
        match self.at_hand.get(slot_of(key)) {
            Some(Some(known)) if is_same(known.bytes(), text) => copied(known),
            _ => self.new_request(key, text),
        }
    }

    // A name that is not at hand.
    #[inline(never)]
    fn kept_name(&mut self, key: u64, text: &[u8]) -> Result<Name, ParseError>
        ensures { Gives result (name_of text.now) }
    {
        match self.names.get(&key) {
            Some(known) if is_same(known.bytes(), text) => {
                let name = copied(known)?;
                self.put_at_hand(key, name)
            }
            Some(_) => new_name(self.alloc, text),
            None => self.keep_name(key, text),
        }
    }

    // The name of a request that is not at hand.
    #[inline(never)]
    fn new_request(&mut self, key: u64, text: &[u8]) -> Result<Name, ParseError>
        ensures { Gives result (name_of text.now) }
    {
        let name = new_name(self.alloc, text)?;
        self.put_at_hand(key, name)
    }

    // A name that comes for the first time.
    #[inline(never)]
    fn keep_name(&mut self, key: u64, text: &[u8]) -> Result<Name, ParseError>
        ensures { Gives result (name_of text.now) }
    {
        let name = new_name(self.alloc, text)?;
        let kept = copied(&name)?;
        match self.names.insert(key, kept) {
            Ok(_) => self.put_at_hand(key, name),
            Err(_) => Err(ParseError::Memory),
        }
    }

    // Has the name at hand, and answers it.
    fn put_at_hand(&mut self, key: u64, name: Name) -> Result<Name, ParseError>
        ensures ok { IfOk result (λ same. same ≡ name) }
        ensures err { IfErr result (λ error. error ≡ ParseError.Memory) }
    {
        if self.at_hand.is_empty() {
            match no_names(self.alloc, AT_HAND) {
                Ok(slots) => self.at_hand = slots,
                Err(_) => return Err(ParseError::Memory),
            }
        }
        let same = copied(&name)?;
        if let Some(slot) = self.at_hand.get_mut(slot_of(key)) {
            *slot = Some(name);
        }
        Ok(same)
    }

    /// The text behind an `@` as a site.
    pub fn site(&mut self, text: &[u8]) -> Result<Site, ParseError>
        ensures { Gives result (site text.now) }
    {
        let key = key_of(text);
        match self.sites.get(&key) {
            Some(known) if is_same(known.bytes(), text) => match known.copy() {
                Ok(site) => Ok(site),
                Err(_) => Err(ParseError::Memory),
            },
            Some(_) => new_site(self.alloc, text),
            None => self.keep_site(key, text),
        }
    }

    // A site that comes for the first time.
    #[inline(never)]
    fn keep_site(&mut self, key: u64, text: &[u8]) -> Result<Site, ParseError>
        ensures { Gives result (site text.now) }
    {
        let site = new_site(self.alloc, text)?;
        let Ok(kept) = site.copy() else {
            return Err(ParseError::Memory);
        };
        match self.sites.insert(key, kept) {
            Ok(_) => Ok(site),
            Err(_) => Err(ParseError::Memory),
        }
    }
}

// So many slots without names.
fn no_names(alloc: Global, count: usize) -> Result<Vec<Option<Name>>, Memory> {
    let mut slots = Vec::with_capacity(alloc, count)?;
    for _ in 0..count {
        slots.push(None)?;
    }
    Ok(slots)
}

// The slot of a name of this key.
#[inline]
fn slot_of(key: u64) -> usize {
    (key % AT_HAND as u64) as usize
}

// The slot of the names that begin with this byte.
#[inline]
fn slot_of_initial(byte: u8) -> usize {
    usize::from(byte) % INITIALS
}

// Whether a text begins with another.
#[inline]
fn begins_with(text: &[u8], front: &[u8]) -> bool
    ensures { result ≡ true → take (length front.now) text.now ≡ front.now }
{
    match text.get(..front.len()) {
        Some(own) => is_same(own, front),
        None => false,
    }
}

// The same name.
#[inline]
fn copied(name: &Name) -> Result<Name, ParseError>
    ensures ok { IfOk result (λ same. same ≡ name.now) }
    ensures err { IfErr result (λ error. error ≡ ParseError.Memory) }
{
    match name.copy() {
        Ok(name) => Ok(name),
        Err(_) => Err(ParseError::Memory),
    }
}

fn new_name(alloc: Global, text: &[u8]) -> Result<Name, ParseError>
    ensures { Gives result (name_of text.now) }
{
    match Name::new(alloc, text) {
        Ok(name) => Ok(name),
        Err(NameError::Bad) => Err(refused(FormReason::BadName)),
        Err(NameError::Memory) => Err(ParseError::Memory),
    }
}

fn new_site(alloc: Global, text: &[u8]) -> Result<Site, ParseError>
    ensures { Gives result (site text.now) }
{
    match Site::new(alloc, text) {
        Ok(site) => Ok(site),
        Err(NameError::Bad) => Err(refused(FormReason::BadName)),
        Err(NameError::Memory) => Err(ParseError::Memory),
    }
}

// The number by which a text is looked up. Two texts seldom have the same, unless they were made to.
#[inline]
fn key_of(text: &[u8]) -> u64 {
    let mut state = FoldHasher::default();
    state.write(text);
    state.finish()
}
