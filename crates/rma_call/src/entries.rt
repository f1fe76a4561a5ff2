//! Calls by their numbers, in two columns.
ghost use Rattle.std.specs.Prelude.{◌≡◌, ◌<◌, ◌++◌, [], ◌∷◌, length, slice_get, option_map, Some, OnOk, OnErr};

use rma_base::{LineNo, Memory};
use std::alloc::Global;
use std::marker::Model;

/// A call, by its numbers.
#[derive(Clone, Copy, Debug)]
pub(crate) struct Entry {
    /// The line of the call.
    pub(crate) line: LineNo,
    /// The number of what it does.
    pub(crate) what: u32,
    /// One more than the number of its site, 0 for none.
    pub(crate) site: u32,
    /// One more than the number of its request, 0 for none.
    pub(crate) request: u32,
}

/// Calls by their numbers. What a call does stands apart, since who goes over all calls mostly asks for that alone.
#[derive(Debug, Drop)]
pub(crate) struct Entries {
    /// By call, the number of what it does.
    whats: Vec<u32>,
    /// By call, its other numbers.
    details: Vec<Detail>,
}

/// The numbers of a call but for that of what it does.
#[derive(Clone, Copy, Debug)]
struct Detail {
    /// The line of the call.
    line: LineNo,
    /// One more than the number of its site, 0 for none.
    site: u32,
    /// One more than the number of its request, 0 for none.
    request: u32,
}

impl Model for Entries {
    ghost use Rattle.std.specs.Prelude.{List};
    ghost use Rattle.rma_call.specs.declared.entries.Entry.{Entry};

    ghost Value = { List Entry };

    ghost use Rattle.std.specs.Prelude.{◌≡◌, length};
    ghost use Rattle.rma_call.specs.inside.Entries.{joined};

    ghost view = { λ entries. joined entries.whats.items entries.details.items };

    ghost invariant = { λ entries. length entries.whats.items ≡ length entries.details.items };
}

impl Entries {
    /// None.
    pub(crate) fn new(alloc: Global) -> Entries
        ensures { result ≡ [] }
    {
        Entries {
            whats: Vec::new(alloc),
            details: Vec::new(alloc),
        }
    }

    /// How many there are.
    pub(crate) fn len(&self) -> usize
        ensures { result ≡ length self.now }
    {
        self.whats.len()
    }

    /// The one at the index.
    pub(crate) fn get(&self, i: usize) -> Entry
        requires { i < length self.now }
        ensures { slice_get self.now i ≡ Some result }
    {
        let detail = self.details[i];
        Entry {
            line: detail.line,
            what: self.whats[i],
            site: detail.site,
            request: detail.request,
        }
    }

    /// The number of what the call at the index does.
    #[inline]
    pub(crate) fn what(&self, i: usize) -> u32
        requires { i < length self.now }
        ensures { option_map (λ entry. entry.what) (slice_get self.now i) ≡ Some result }
    {
        self.whats[i]
    }

    /// Appends a call.
    pub(crate) fn push(&mut self, entry: Entry) -> Result<(), Memory>
        ensures ok { OnOk result (self.new ≡ self.old ++ entry ∷ []) }
        ensures err { OnErr result (self.new ≡ self.old) }
    {
        self.whats.push(entry.what)?;
        let detail = Detail {
            line: entry.line,
            site: entry.site,
            request: entry.request,
        };
        match self.details.push(detail) {
            Ok(()) => Ok(()),
            Err(_) => {
                self.whats.pop();
                Err(Memory)
            }
        }
    }
}
