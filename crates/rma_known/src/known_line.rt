//! The words of a line that came before.
ghost use Rattle.std.specs.Prelude.{◌≡◌, IfOk, IfSome, is_none, true};
ghost use Rattle.std.specs.Option.{option_copied};

use rma_base::{Memory, Name, Version};
use std::alloc::Global;
use std::marker::Model;

/// The words of a line without its site, with the call that they state. Most slots have none, so a slot has a pointer.
#[derive(Drop)]
pub struct KnownLine {
    stated: Box<StatedWords>,
}

/// The words of a line, with the call that they state.
#[derive(Drop)]
struct StatedWords {
    /// The version of the format in which they were read.
    version: Version,
    /// The words.
    words: Vec<u8>,
    /// The number of what the call does.
    what: u32,
    /// The request that it makes or completes.
    request: Option<Name>,
    /// The era in which it does that; none where it does so in each.
    era: Option<u64>,
}

impl Model for KnownLine {
    ghost use Rattle.std.specs.Prelude.{is_none};
    ghost use Rattle.rma_known.specs.inside.Dated.{Dated};

    ghost Value = { Dated };

    ghost view = { λ line. record {
      known = record {
        version = line.stated.value.version;
        words = line.stated.value.words.items;
        what = line.stated.value.what;
        request = line.stated.value.request;
        lasts = is_none line.stated.value.era;
      };
      era = line.stated.value.era;
    } };
}

impl KnownLine {
    /// These words, with the call that they state.
    pub(crate) fn new(
        alloc: Global,
        version: Version,
        words: &[u8],
        what: u32,
        request: Option<&Name>,
        era: Option<u64>,
    ) -> Result<KnownLine, Memory>
        ensures { IfOk result (λ line. line ≡ record {
          known = record { version = version; words = words.now; what = what; request = option_copied request.entry; lasts = is_none era };
          era = era;
        }) }
    {
        let words = Vec::from_slice(alloc, words)?;
        let request = match request {
            Some(name) => Some(name.copy()?),
            None => None,
        };
        let stated = StatedWords {
            version,
            words,
            what,
            request,
            era,
        };
        Ok(KnownLine {
            stated: Box::new(alloc, stated)?,
        })
    }

    /// Whether it is these words, read in this version, and states the same call in this era.
    #[inline]
    pub(crate) fn is(&self, version: Version, words: &[u8], era: u64) -> bool
        ensures version { result ≡ true → self.now.known.version ≡ version }
        ensures words { result ≡ true → self.now.known.words ≡ words.now }
        ensures era { result ≡ true → IfSome self.now.era (λ own. own ≡ era) }
    {
        let stated = &self.stated;
        let lasts = match stated.era {
            Some(own) => own == era,
            None => true,
        };
        lasts && stated.version == version && stated.words.as_slice() == words
    }

    /// The number of what the call does.
    #[inline]
    pub fn what(&self) -> u32
        ensures { result ≡ self.now.known.what }
    {
        self.stated.what
    }

    /// The request that the call makes or completes.
    #[inline]
    pub fn request(&self) -> Result<Option<Name>, Memory>
        ensures { IfOk result (λ request. request ≡ self.now.known.request) }
    {
        match &self.stated.request {
            Some(name) => Ok(Some(name.copy()?)),
            None => Ok(None),
        }
    }
}
