//! What a call waits for, as an inbox keeps it.
ghost use Rattle.std.specs.Prelude.{◌≡◌, ◌≤◌, [], ◌∷◌, length, IfOk, IfSome, IfNone};
ghost use Rattle.rma_walk.specs.inside.Inbox.{AreEarlier, chain, reach, source_of};

use crate::source::Source;
use rma_base::{Memory, Point, Sequence};
use std::alloc::Global;

/// What a call waits for.
#[derive(Clone, Copy)]
pub(crate) enum Waits {
    /// Nothing.
    Nothing,
    /// The meet with this index, and nothing else.
    Meet(u32),
    /// The source of the arrival with this index, and what the call waited for before it came.
    Arrivals(u32),
}

/// A source of a call that waits for an edge, or for more than one source.
#[derive(Clone, Copy)]
pub(crate) struct Arrival {
    /// The source.
    pub(crate) source: ShortSource,
    /// What the call waited for before it came.
    pub(crate) before: Waits,
}

/// A source as it is kept.
#[derive(Clone, Copy)]
pub(crate) enum ShortSource {
    /// The entry of a call.
    Entry(Point),
    /// The entries of all members of the meet with this index.
    Meet(u32),
}

impl ShortSource {
    /// The source, if its index fits.
    pub(crate) fn of(source: Source) -> Result<ShortSource, Memory>
        ensures { IfOk result (λ short. source_of short ≡ source) }
    {
        match source {
            Source::Entry(point) => Ok(ShortSource::Entry(point)),
            Source::Meet(index) => match u32::try_from(index) {
                Ok(index) => Ok(ShortSource::Meet(index)),
                Err(_) => Err(Memory),
            },
        }
    }

    /// The source that is kept.
    #[inline]
    fn source(self) -> Source
        ensures { result ≡ source_of self }
    {
        match self {
            ShortSource::Entry(point) => Source::Entry(point),
            ShortSource::Meet(index) => Source::Meet(index as usize),
        }
    }
}

impl Waits {
    /// The first source, and what the call waits for beside it.
    #[inline]
    pub(crate) fn split(self, arrivals: &[Arrival]) -> Option<(Source, Waits)>
        requires within { reach self ≤ length arrivals.now }
        requires earlier { AreEarlier arrivals.now }
        ensures none { IfNone result (chain arrivals.now self ≡ []) }
        ensures some { IfSome result (λ parts. chain arrivals.now self ≡ parts.0 ∷ chain arrivals.now parts.1) }
        ensures within { IfSome result (λ parts. reach parts.1 ≤ length arrivals.now) }
    {
        match self {
            Waits::Nothing => None,
            Waits::Meet(index) => Some((Source::Meet(index as usize), Waits::Nothing)),
            Waits::Arrivals(index) => {
                let arrival = arrivals[index as usize];
                Some((arrival.source.source(), arrival.before))
            }
        }
    }

    /// All sources.
    pub(crate) fn sources(
        self,
        alloc: Global,
        arrivals: &[Arrival],
    ) -> Result<Sequence<Source>, Memory>
        requires within { reach self ≤ length arrivals.now }
        requires earlier { AreEarlier arrivals.now }
        ensures { IfOk result (λ sources. sources ≡ chain arrivals.now self) }
    {
        let mut sources = Sequence::new(alloc);
        let mut waits = self;
        while let Some((source, rest)) = waits.split(arrivals) {
            sources.push(source)?;
            waits = rest;
        }
        Ok(sources)
    }
}
