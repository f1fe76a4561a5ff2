//! The calls that a log repeats elsewhere.
ghost use Rattle.std.specs.Prelude.{◌≡◌, ◌⊎◌, Some, [], false, IfSome, IfOk, slice_set};
ghost use Rattle.std.specs.Option.{option_copied};
ghost use Rattle.rma_known.specs.Elsewhere.{no_details};
ghost use Rattle.rma_known.specs.Known.{Known};
ghost use Rattle.rma_known.specs.inside.Templates.{IsKnownAmong, IsMadeAmong, Placed};

use crate::call_form::CallForm;
use crate::call_template::CallTemplate;
use crate::key::shape_of;
use crate::particulars::Particulars;
use crate::placed_call::PlacedCall;
use rma_base::{Memory, Name, Version};
use rma_field::Texts;
use std::alloc::Global;
use std::marker::Model;

/// How many calls are kept.
const SLOTS: usize = 1_024;

/// Calls that came before, each in one of the two slots that its shape gives, if one of its shape came twice to them with no more
/// than one other between. What accesses do depends on the datatypes: all calls are known until those change.
#[derive(Drop)]
pub struct CallTemplates {
    /// The slots: none, or `SLOTS` of them.
    slots: Vec<Option<CallTemplate>>,
    /// What came last to each slot, of what was not found in it.
    last: Vec<Last>,
}

/// Where so many calls stand between two that were not found in a slot, those of its shape between them were.
const FAR: u32 = 64;

/// What came last to a slot.
#[derive(Drop)]
struct Last {
    /// The lower half of its shape.
    shape: u32,
    /// How many calls were before it, the lower half of that number.
    at: u32,
    /// How often the shape came again, counted anew where that is too often.
    times: u8,
}

impl Model for CallTemplates {
    ghost use Rattle.std.specs.Prelude.{List, Option};
    ghost use Rattle.rma_known.specs.inside.Templates.{Placed};

    ghost Value = { List (Option Placed) };

    ghost view = { λ templates. templates.slots.items };
}

impl CallTemplates {
    /// None.
    pub fn new(alloc: Global) -> Result<CallTemplates, Memory>
        ensures { IfOk result (λ templates. templates ≡ []) }
    {
        Ok(CallTemplates {
            slots: Vec::new(alloc),
            last: nothing_last(alloc)?,
        })
    }

    /// The call that is known, where these words, read in this version, are those of it elsewhere: these are then its particulars
    /// there. Names are those of these texts.
    pub fn find(
        &self,
        texts: &mut Texts,
        version: Version,
        words: &[u8],
        to: &mut Particulars,
    ) -> Result<Option<PlacedCall<'_>>, Memory>
        requires { to.old ≡ no_details }
        ensures { IfOk result (λ found. IfSome found (λ found. IsMadeAmong self.now version words.now found.what found.requests found.from.now to.new)) }
    {
        if self.slots.is_empty() {
            return Ok(None);
        }
        let slot = slot_of(shape_of(words));
        match self.find_in(slot, texts, version, words, to)? {
            Some(call) => Ok(Some(call)),
            None => {
                *to = Particulars::new();
                self.find_in(beside(slot), texts, version, words, to)
            }
        }
    }

    /// The same of the call that stands in a slot.
    #[inline]
    fn find_in(
        &self,
        slot: usize,
        texts: &mut Texts,
        version: Version,
        words: &[u8],
        to: &mut Particulars,
    ) -> Result<Option<PlacedCall<'_>>, Memory>
        requires { to.old ≡ no_details }
        ensures { IfOk result (λ found. IfSome found (λ found. IsMadeAmong self.now version words.now found.what found.requests found.from.now to.new)) }
    {
        match self.slots.get(slot) {
            Some(Some(template)) => template.elsewhere(texts, version, words, to),
            _ => Ok(None),
        }
    }

    /// Notes that these words, read in this version behind so many calls, state a call of this form that does this, and has this
    /// request.
    pub fn note(
        &mut self,
        texts: &mut Texts,
        version: Version,
        words: &[u8],
        form: CallForm,
        what: u32,
        request: Option<&Name>,
        at: usize,
    ) -> Result<(), Memory>
        ensures { (known : Known) → IsKnownAmong self.new known
            → IsKnownAmong self.old known ⊎ (known ≡ record { version = version; words = words.now; what = what; request = option_copied request.entry; lasts = false }) }
    {
        let shape = shape_of(words);
        if !comes_again(&mut self.last, shape, at) {
            return Ok(());
        }
        match CallTemplate::new(texts, version, words, form, what, request) {
            Ok(Some(template)) => self.keep(texts.allocator(), self.slot_for(shape), template),
            Ok(None) => Ok(()),
            Err(Memory) => Err(Memory),
        }
    }

    /// The slot for a call of this shape: the second of its two, if that alone is free, and else the first.
    fn slot_for(&self, shape: u64) -> usize {
        let slot = slot_of(shape);
        match (self.slots.get(slot), self.slots.get(beside(slot))) {
            (Some(Some(_)), Some(None)) => beside(slot),
            _ => slot,
        }
    }

    /// Keeps a call in this slot.
    fn keep(&mut self, alloc: Global, at: usize, template: CallTemplate) -> Result<(), Memory>
        ensures { (known : Known) → IsKnownAmong self.new known → IsKnownAmong self.old known ⊎ (known ≡ template.known) }
    {
        match self.open(alloc) {
            Ok(()) => {
                put(&mut self.slots, at, template);
                Ok(())
            }
            Err(Memory) => Err(Memory),
        }
    }

    /// Has slots from now on.
    fn open(&mut self, alloc: Global) -> Result<(), Memory>
        ensures { (known : Known) → IsKnownAmong self.new known → IsKnownAmong self.old known }
    {
        if self.slots.is_empty() {
            self.slots = no_templates(alloc)?;
        }
        Ok(())
    }

    /// No call is known any more.
    pub fn forget(&mut self)
        ensures { self.new ≡ [] }
    {
        self.slots.clear();
    }
}

/// Whether a call of this shape, behind so many calls, is to be kept: one of the same shape came last to one of its slots. Where
/// calls of one shape are not found though one is kept, they differ in other words, and it gives way to another more and more
/// seldom; but at once where all were found for long.
fn comes_again(last: &mut Vec<Last>, shape: u64, at: usize) -> bool {
    let at = lower_half(at as u64);
    let slot = slot_of_last(last, shape, at);
    let Some(last) = last.get_mut(slot) else {
        return false;
    };
    let is_far = at.wrapping_sub(last.at) > FAR;
    last.at = at;
    if last.shape != lower_half(shape) {
        last.shape = lower_half(shape);
        last.times = 0;
        return false;
    }
    last.times = if is_far {
        1
    } else {
        last.times.wrapping_add(1)
    };
    last.times.is_power_of_two()
}

/// The slot to which one of this shape came last, behind so many calls, or else that of its two to which none came for longer.
fn slot_of_last(last: &Vec<Last>, shape: u64, at: u32) -> usize {
    let slot = slot_of(shape);
    let (Some(own), Some(other)) = (last.get(slot), last.get(beside(slot))) else {
        return slot;
    };
    if own.shape == lower_half(shape) {
        return slot;
    }
    let is_older = at.wrapping_sub(other.at) > at.wrapping_sub(own.at);
    if other.shape == lower_half(shape) || is_older {
        beside(slot)
    } else {
        slot
    }
}

/// Has the call in this slot, if there is such a slot.
fn put(slots: &mut Vec<Option<CallTemplate>>, at: usize, template: CallTemplate)
    ensures { slots.new.items ≡ slice_set slots.old.items at (Some template) }
{
    if let Some(slot) = slots.get_mut(at) {
        *slot = Some(template);
    }
}

/// Slots without calls.
fn no_templates(alloc: Global) -> Result<Vec<Option<CallTemplate>>, Memory>
    ensures { IfOk result (λ slots. (known : Known) → IsKnownAmong slots.items known → ⊥) }
{
    let mut slots = Vec::with_capacity(alloc, SLOTS)?;
    for _ in 0..SLOTS {
        slots.push(None)?;
    }
    Ok(slots)
}

/// Slots to which nothing came.
fn nothing_last(alloc: Global) -> Result<Vec<Last>, Memory> {
    let mut last = Vec::with_capacity(alloc, SLOTS)?;
    for _ in 0..SLOTS {
        last.push(Last {
            shape: 0,
            at: 0,
            times: 0,
        })?;
    }
    Ok(last)
}

/// The lower half of a number.
#[inline]
fn lower_half(number: u64) -> u32 {
    (number & 0xffff_ffff) as u32
}

/// The other slot of a shape of which this is one.
#[inline]
fn beside(slot: usize) -> usize {
    slot ^ 1
}

/// The first slot of a shape: its first ten bits, of which there are `SLOTS`.
#[inline]
fn slot_of(shape: u64) -> usize {
    (shape >> 54) as usize
}
