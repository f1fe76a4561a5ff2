//! Slots for the numbers of sites.

use rma_base::Memory;
use std::alloc::Global;

/// How many slots there are at least.
const FEWEST: usize = 64;

/// How many slots a number may stand in, one after another.
pub(crate) const PROBES: usize = 64;

/// In how many of these it most likely stands.
const LIKELY: usize = 4;

/// The half of a key of which a slot has a copy.
const UPPER: u64 = 0xffff_ffff_0000_0000;

/// A slot: half of the key of a text, and the number of that site and one more, or zero.
#[derive(Clone, Copy)]
pub(crate) struct SiteSlot(u64);

impl SiteSlot {
    /// No number.
    const FREE: SiteSlot = SiteSlot(0);

    /// The number of a site, whose text has this key.
    fn new(key: u64, number: u32) -> SiteSlot {
        SiteSlot(key & UPPER | u64::from(number.wrapping_add(1)))
    }

    /// Whether it has no number.
    #[inline]
    pub(crate) fn is_free(self) -> bool {
        self.0 == 0
    }

    /// The number, where it is that of a site whose text has this key, mostly.
    #[inline]
    pub(crate) fn number_for(self, key: u64) -> Option<u32> {
        if self.is_like(key) {
            Some(self.number())
        } else {
            None
        }
    }

    /// Whether it has half of this key.
    #[inline]
    fn is_like(self, key: u64) -> bool {
        (self.0 ^ key) & UPPER == 0
    }

    /// The number, if it has one.
    #[inline]
    fn number(self) -> u32 {
        ((self.0 & !UPPER) as u32).wrapping_sub(1)
    }
}

/// The numbers of the sites of a log, each in one of the slots behind the one that its key gives. What a slot has decides
/// nothing: whoever takes a number from it compares the texts.
#[derive(Drop)]
pub(crate) struct SiteSlots {
    /// The slots: none, or a power of two.
    slots: Vec<SiteSlot>,
}

impl SiteSlots {
    /// No slots.
    pub(crate) fn new(alloc: Global) -> SiteSlots {
        SiteSlots {
            slots: Vec::new(alloc),
        }
    }

    /// Free slots, twice as many as these.
    pub(crate) fn doubled(&self, alloc: Global) -> Result<SiteSlots, Memory> {
        let count = self.slots.len().saturating_mul(2).max(FEWEST);
        let mut slots = Vec::with_capacity(alloc, count)?;
        for _ in 0..count {
            slots.push(SiteSlot::FREE)?;
        }
        Ok(SiteSlots { slots })
    }

    /// How many slots there are.
    #[inline]
    pub(crate) fn len(&self) -> usize {
        self.slots.len()
    }

    /// The slot that stands so many steps behind the first in which a site of this key may stand.
    #[inline]
    pub(crate) fn get(&self, key: u64, step: usize) -> SiteSlot {
        match self.slots.get(self.place(key, step)) {
            Some(slot) => *slot,
            None => SiteSlot::FREE,
        }
    }

    /// The number that a site of this key most likely has: that of the first of four slots that has half of the key. All are read, so
    /// that no read waits for what another one found.
    #[inline]
    pub(crate) fn likely_number(&self, key: u64) -> u32 {
        let mut likely = self.get(key, LIKELY - 1);
        for before in 1..LIKELY {
            let slot = self.get(key, LIKELY - 1 - before);
            if slot.is_like(key) {
                likely = slot;
            }
        }
        likely.number()
    }

    /// Reads the slots that say the likely numbers of sites of these keys. What comes of it says nothing.
    pub(crate) fn read_ahead(&self, keys: &[u64]) -> u64 {
        let mut seen = 0;
        for key in keys {
            seen ^= self.get(*key, 0).0 ^ self.get(*key, LIKELY - 1).0;
        }
        seen
    }

    /// Keeps the number of a site, whose text has this key: in the first free slot, or else in the first of all.
    pub(crate) fn keep(&mut self, key: u64, number: u32) {
        let place = self.free_place(key);
        if let Some(slot) = self.slots.get_mut(place) {
            *slot = SiteSlot::new(key, number);
        }
    }

    /// The first free slot in which a site of this key may stand, or else the first of all.
    fn free_place(&self, key: u64) -> usize {
        for step in 0..PROBES {
            if self.get(key, step).is_free() {
                return self.place(key, step);
            }
        }
        self.place(key, 0)
    }

    /// Where the slots stand in which a site of this key may stand.
    #[inline]
    fn place(&self, key: u64, step: usize) -> usize {
        (key as usize).wrapping_add(step) & self.slots.len().wrapping_sub(1)
    }
}
