//! The lines that a log repeats.
ghost use Rattle.std.specs.Prelude.{◌≡◌, ◌⊎◌, true, All, None, Some, IfSome, IfOk, slice_set, if◌then◌else◌};
ghost use Rattle.std.specs.Option.{option_copied};
ghost use Rattle.rma_known.specs.Known.{Known, IsAmong};

use crate::known_line::KnownLine;
use crate::split_line::SplitLine;
use rma_base::{Memory, Name, Version};
use std::alloc::Global;
use std::marker::Model;

/// How many known lines are kept.
const SLOTS: usize = 1_024;

/// The keys of a slot.
#[derive(Clone, Copy, Drop)]
struct Keys {
    /// Part of the key of the words that the slot has; or 0, and then nearly always none.
    known: u32,
    /// The same of the words that came last to it.
    last: u32,
}

/// The words of lines that came again, each in the slot that its key gives, with the calls that they state. What an access does
/// depends on the datatypes: it is known until they change, which begins another era.
#[derive(Drop)]
pub struct KnownLines {
    keys: Vec<Keys>,
    slots: Vec<Option<KnownLine>>,
    /// How often the datatypes changed.
    era: u64,
}

impl Model for KnownLines {
    ghost use Rattle.std.specs.Prelude.{List, Option, map, All};
    ghost use Rattle.rma_known.specs.Known.{Known};
    ghost use Rattle.rma_known.specs.inside.Dated.{IsDated, kept_at};

    ghost Value = { List (Option Known) };

    ghost view = { λ lines. map (kept_at lines.era) lines.slots.items };

    ghost invariant = { λ lines. All (IsDated lines.era) lines.slots.items };
}

impl KnownLines {
    /// No lines.
    pub fn new(alloc: Global) -> Result<KnownLines, Memory>
        ensures { IfOk result (λ lines. (known : Known) → IsAmong lines known → ⊥) }
    {
        Ok(KnownLines {
            keys: no_keys(alloc)?,
            slots: no_lines(alloc)?,
            era: 0,
        })
    }

    /// The known line of these words, of which this is the key, read in this version. None, where they are not looked up.
    #[inline]
    pub fn find(&self, key: Option<u64>, version: Version, words: &[u8]) -> Option<&KnownLine>
        ensures among { IfSome result (λ line. IsAmong self.now line.now.known) }
        ensures version { IfSome result (λ line. line.now.known.version ≡ version) }
        ensures words { IfSome result (λ line. line.now.known.words ≡ words.now) }
    {
        let key = key?;
        if !self.has_key(key) {
            return None;
        }
        match self.slots.get(slot_of(key)) {
            Some(Some(line)) if line.is(version, words, self.era) => Some(line),
            _ => None,
        }
    }

    /// Whether words of this key, or of one like it, may be known: they tell without a look at the line.
    #[inline]
    fn has_key(&self, key: u64) -> bool {
        match self.keys.get(slot_of(key)) {
            Some(keys) => keys.known == part_of(key),
            None => false,
        }
    }

    /// Notes that these words, read in this version, state a call that does this, where they come again: then the slot has this
    /// line, if it is looked up. It is said whether they state the same call whatever the datatypes are.
    pub fn note(
        &mut self,
        alloc: Global,
        version: Version,
        line: &SplitLine<'_>,
        what: u32,
        request: Option<&Name>,
        lasts: bool,
    ) -> Result<(), Memory>
        ensures { (known : Known) → IsAmong self.new known
            → IsAmong self.old known ⊎ (known ≡ record { version = version; words = line.now.words; what = what; request = option_copied request.entry; lasts = lasts }) }
    {
        let Some(key) = line.key() else {
            return Ok(());
        };
        if !comes_again(&mut self.keys, key) {
            return Ok(());
        }
        let era = era_of(lasts, self.era);
        let known = KnownLine::new(alloc, version, line.words(), what, request, era)?;
        has_now(&mut self.keys, key);
        put(&mut self.slots, slot_of(key), known);
        Ok(())
    }

    /// The datatypes have changed: no access is known.
    pub fn forget_accesses(&mut self)
        ensures among { (known : Known) → IsAmong self.new known → IsAmong self.old known }
        ensures lasting { (known : Known) → IsAmong self.new known → known.lasts ≡ true }
    {
        match self.era.checked_add(1) {
            Some(era) => self.era = era,
            None => self.slots.clear(),
        }
    }
}

/// Whether the words that came last to the slot of this key had it too. From now on these are the last.
fn comes_again(keys: &mut Vec<Keys>, key: u64) -> bool {
    match keys.get_mut(slot_of(key)) {
        Some(keys) => {
            let again = keys.last == part_of(key);
            keys.last = part_of(key);
            again
        }
        None => false,
    }
}

/// The slot of this key has words of this key from now on.
fn has_now(keys: &mut Vec<Keys>, key: u64) {
    if let Some(keys) = keys.get_mut(slot_of(key)) {
        keys.known = part_of(key);
    }
}

/// The era in which words state what they do; none, where they do so in each.
fn era_of(lasts: bool, era: u64) -> Option<u64>
    ensures { result ≡ (if lasts then None else Some era) }
{
    if lasts { None } else { Some(era) }
}

/// Has the line in this slot, if there is such a slot.
fn put(slots: &mut Vec<Option<KnownLine>>, at: usize, line: KnownLine)
    ensures { slots.new.items ≡ slice_set slots.old.items at (Some line) }
{
    if let Some(slot) = slots.get_mut(at) {
        *slot = Some(line);
    }
}

/// The keys of slots that had no words.
fn no_keys(alloc: Global) -> Result<Vec<Keys>, Memory> {
    let mut keys = Vec::with_capacity(alloc, SLOTS)?;
    for _ in 0..SLOTS {
        keys.push(Keys { known: 0, last: 0 })?;
    }
    Ok(keys)
}

/// Slots without lines.
fn no_lines(alloc: Global) -> Result<Vec<Option<KnownLine>>, Memory>
    ensures { IfOk result (λ slots. All (λ slot. slot ≡ None) slots.items) }
{
    let mut slots = Vec::with_capacity(alloc, SLOTS)?;
    for _ in 0..SLOTS {
        slots.push(None)?;
    }
    Ok(slots)
}

/// The slot of a key.
#[inline]
fn slot_of(key: u64) -> usize {
    (key % SLOTS as u64) as usize
}

/// The part of a key by which lines of one slot are told apart, mostly.
#[inline]
fn part_of(key: u64) -> u32 {
    (key >> 32) as u32
}
