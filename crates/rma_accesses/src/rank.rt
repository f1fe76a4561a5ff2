//! The accesses of a rank.
ghost use Rattle.std.specs.Prelude.{◌≡◌, ℕ, ◌<◌, List, Contains, length, slice_get, Some, IfOk, IfSome};
ghost use Rattle.rma_call.specs.Call.{Call, RankCalls};
ghost use Rattle.rma_match.specs.Matches.{AreMatches};
ghost use Rattle.rma_span.specs.Span.{access_of, accesses_of, origin_of, spanned_calls};
ghost use Rattle.rma_window.specs.Creation.{creations};
ghost use Rattle.rma_window.specs.Windows.{windows_by};
ghost use Rattle.rma_accesses.specs.Run.{AreGood, IsEpochsOf, own_of};
ghost use Rattle.rma_accesses.specs.inside.Kept.{IsAccessesOf};

use crate::epochs::RankEpochs;
use rma_base::Memory;
use rma_call::{CallList, RankCalls};
use rma_epoch::PartTable;
use rma_match::Matches;
use rma_rules::{Access, Role};
use rma_span::RankSpans;
use rma_window::Windows;
use std::alloc::Global;

/// What the sound calls of a rank touch.
#[derive(Drop)]
pub struct RankAccesses<'r, 'e> {
    /// The rank with its calls.
    pub(crate) own: &'r RankCalls,
    /// Its calls.
    calls: &'r CallList,
    /// The windows and parts of what they do.
    parts: &'e PartTable,
    /// Where what they touch starts and is done.
    spans: RankSpans,
}

impl<'r, 'e> RankAccesses<'r, 'e> {
    /// Those of a rank of a run with these matches and windows, by its epochs.
    ///
    /// # Errors
    ///
    /// `Memory` where there is none left.
    pub(crate) fn of(
        alloc: Global,
        ranks: &[RankCalls],
        matches: &Matches,
        windows: &Windows,
        epochs: &'e RankEpochs<'r>,
    ) -> Result<RankAccesses<'r, 'e>, Memory>
        requires good { AreGood ranks.now }
        requires matches { AreMatches ranks.now matches.now }
        requires windows { windows.now ≡ windows_by (creations ranks.now) }
        requires there { Contains ranks.now (own_of epochs.now) }
        requires epochs { IsEpochsOf windows.now epochs.now }
        ensures rank { IfOk result (λ accesses. accesses.own.now ≡ own_of epochs.now) }
        ensures accesses { IfOk result (IsAccessesOf ranks.now) }
    {
        let calls = epochs.calls;
        let spans = RankSpans::of(
            alloc,
            ranks,
            matches,
            windows,
            epochs.own.rank(),
            calls,
            &epochs.table,
        )?;
        Ok(RankAccesses {
            own: epochs.own,
            calls,
            parts: epochs.table.parts(),
            spans,
        })
    }

    /// How many calls access memory.
    pub fn len(&self) -> usize
        ensures { (ranks : List RankCalls) → IsAccessesOf ranks self.now → result ≡ length (spanned_calls (origin_of ranks self.now.own.now)) }
    {
        self.spans.len()
    }

    /// The number of the call at an index among those that access memory, in the order of the log.
    pub fn call(&self, index: usize) -> u32
        requires { (ranks : List RankCalls) × IsAccessesOf ranks self.now × index < length (spanned_calls (origin_of ranks self.now.own.now)) }
        ensures { (ranks : List RankCalls) → IsAccessesOf ranks self.now → slice_get (spanned_calls (origin_of ranks self.now.own.now)) index ≡ Some result }
    {
        self.spans.call(index)
    }

    /// The access of the call at an index in a role, if it makes one in that role. The index is one among the calls that access memory,
    /// in the order of the log.
    pub fn access(&self, index: usize, role: Role) -> Option<Access<'_>>
        requires { (ranks : List RankCalls) × IsAccessesOf ranks self.now × index < length (spanned_calls (origin_of ranks self.now.own.now)) }
        ensures is { (ranks : List RankCalls) (number : ℕ) (call : Call) → IsAccessesOf ranks self.now → slice_get (spanned_calls (origin_of ranks self.now.own.now)) index ≡ Some number
            → slice_get (origin_of ranks self.now.own.now).sound number ≡ Some call → result ≡ access_of (origin_of ranks self.now.own.now) number call role }
        ensures of_rank { (ranks : List RankCalls) → IsAccessesOf ranks self.now → IfSome result (Contains (accesses_of (origin_of ranks self.now.own.now))) }
    {
        self.spans
            .access(self.own.rank(), self.calls, self.parts, index, role)
    }
}
