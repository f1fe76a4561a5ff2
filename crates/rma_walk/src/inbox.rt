//! What the calls of one rank wait for.
ghost use Rattle.std.specs.Prelude.{◌≡◌, ◌<◌, [], ◌∷◌, length, replicate, drop, slice_get, slice_index_or, slice_set, IfOk, OnOk};
ghost use Rattle.rma_walk.specs.inside.Inbox.{AreKept};

use crate::source::Source;
use crate::waits::{Arrival, ShortSource, Waits};
use rma_base::{Memory, Sequence};
use std::alloc::Global;
use std::marker::Model;

/// The sources of each call of a rank, the last one first. Nothing is kept beside a call that waits for one meet alone, or for
/// nothing. The sources of all others stand in one list, in which each names the one before it.
#[derive(Drop)]
pub struct Inbox {
    /// By call, what it waits for.
    waits: Vec<Waits>,
    /// The sources of calls that wait for more than one meet, in any order of calls.
    arrivals: Vec<Arrival>,
}

impl Model for Inbox {
    ghost use Rattle.std.specs.Prelude.{List};
    ghost use Rattle.rma_walk.specs.declared.source.Source.{Source};

    ghost Value = { List (List Source) };

    ghost use Rattle.std.specs.Prelude.{map};
    ghost use Rattle.rma_walk.specs.inside.Inbox.{chain, AreChained};

    ghost view = { λ inbox. map (chain inbox.arrivals.items) inbox.waits.items };

    ghost invariant = { λ inbox. AreChained inbox.arrivals.items inbox.waits.items };
}

impl Inbox {
    /// No sources, of so many calls.
    pub(crate) fn new(alloc: Global, calls: u32) -> Result<Inbox, Memory>
        ensures { IfOk result (λ inbox. inbox ≡ replicate calls []) }
    {
        let waits = vec![in alloc; Waits::Nothing; calls as usize]?;
        Ok(Inbox {
            waits,
            arrivals: Vec::new(alloc),
        })
    }

    /// Adds a source of the call.
    pub(crate) fn push(&mut self, call: u32, source: Source) -> Result<(), Memory>
        requires { call < length self.old }
        ensures { OnOk result (self.new ≡ slice_set self.old call (source ∷ slice_index_or self.old call [])) }
    {
        let source = ShortSource::of(source)?;
        let before = self.waits[call as usize];
        if let (Waits::Nothing, ShortSource::Meet(index)) = (before, source) {
            self.waits[call as usize] = Waits::Meet(index);
            return Ok(());
        }
        let Ok(index) = u32::try_from(self.arrivals.len()) else {
            return Err(Memory);
        };
        self.arrivals.push(Arrival { source, before })?;
        self.waits[call as usize] = Waits::Arrivals(index);
        Ok(())
    }

    /// How it is kept what the call waits for.
    #[inline]
    pub(crate) fn waits(&self, call: u32) -> Waits
        requires { call < length self.now }
        ensures { AreKept result (slice_index_or self.now call []) }
    {
        self.waits[call as usize]
    }

    /// The first source of the call that is left.
    #[inline]
    pub fn first(&self, call: u32) -> Option<Source>
        requires { call < length self.now }
        ensures { result ≡ slice_get (slice_index_or self.now call []) 0 }
    {
        match self.waits[call as usize].split(&self.arrivals) {
            Some((source, _)) => Some(source),
            None => None,
        }
    }

    /// The sources of the call.
    ///
    /// # Errors
    ///
    /// `Memory` where there is none left.
    pub fn sources(&self, alloc: Global, call: u32) -> Result<Sequence<Source>, Memory>
        requires { call < length self.now }
        ensures { IfOk result (λ sources. sources ≡ slice_index_or self.now call []) }
    {
        self.waits[call as usize].sources(alloc, &self.arrivals)
    }

    /// Takes the first source of the call away.
    #[inline]
    pub fn drop_first(&mut self, call: u32)
        requires call { call < length self.old }
        requires some { 0 < length (slice_index_or self.old call []) }
        ensures { self.new ≡ slice_set self.old call (drop 1 (slice_index_or self.old call [])) }
    {
        if let Some((_, rest)) = self.waits[call as usize].split(&self.arrivals) {
            self.waits[call as usize] = rest;
        }
    }
}
