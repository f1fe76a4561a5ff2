//! The spans of what the calls of a rank touch.
ghost use Rattle.std.specs.Prelude.{◌≡◌, ℕ, ◌<◌, ◌≤◌, ◌+◌, ◌^◌, ◌↔◌, List, Option, Some, length, slice_get, IfOk, IfSome};
ghost use Rattle.rma_base.specs.Limits.{address_limit};
ghost use Rattle.rma_call.specs.Call.{Call, call_of, what_of};
ghost use Rattle.rma_epoch.specs.Table.{AreEpochs};
ghost use Rattle.rma_open.specs.Calls.{number_on, part_on};
ghost use Rattle.rma_touch.specs.Touches.{HasBuffers, Span as Touched};
ghost use Rattle.rma_match.specs.Matches.{AreMatches};
ghost use Rattle.rma_run.specs.Run.{IsRun};
ghost use Rattle.rma_span.specs.Span.{AreAskable, AreFreedLater, Origin, access_of, is_at_target, origin_with, span_of, spanned_calls};
ghost use Rattle.rma_span.specs.inside.Stored.{AreSpansOf, IsAtTarget, IsOwn, Represents};

use crate::completed::completions_of;
use crate::run::RankRun;
use crate::spans::{CallSpans, OwnSpan, TargetSpan};
use crate::walk::{Walk, all_spans};
use rma_base::{Memory, Rank};
use rma_call::{CallList, CallRef, RankCalls};
use rma_cover::{KeyLists, OwnLocks};
use rma_epoch::{EpochTable, PartTable};
use rma_match::Matches;
use rma_rules::{Access, Role};
use rma_side::Sides;
use rma_touch::{Span, touch_at};
use rma_window::{Part, WindowId, Windows};
use std::alloc::Global;

/// The spans of what the sound calls of a rank touch.
#[derive(Drop)]
pub struct RankSpans {
    /// Those of each call that accesses memory, in the order of the calls.
    spans: Vec<CallSpans>,
    /// The lists of lock epochs in which memory of the rank itself is used.
    own_lists: KeyLists,
    /// The lists of lock epochs in which targets are accessed.
    target_lists: KeyLists,
}

impl RankSpans {
    /// Those of a rank of a run with these matches and windows, by its calls and its epochs.
    ///
    /// # Errors
    ///
    /// `Memory` where there is none left, also where a call has a number from which no point is made.
    pub fn of(
        alloc: Global,
        ranks: &[RankCalls],
        matches: &Matches,
        windows: &Windows,
        rank: Rank,
        calls: &CallList,
        table: &EpochTable,
    ) -> Result<RankSpans, Memory>
        requires run { IsRun ranks.now }
        requires matches { AreMatches ranks.now matches.now }
        requires table { AreEpochs windows.now calls.now table.now }
        requires later { AreFreedLater (origin_with windows.now ranks.now rank calls.now.calls) }
        ensures { IfOk result (Represents (origin_with windows.now ranks.now rank calls.now.calls)) }
    {
        let completions = completions_of(alloc, calls, table.parts(), table.sound())?;
        let from = RankRun {
            ranks,
            matches,
            windows,
            rank,
            table,
            epochs: table.epochs(),
            completions: &completions,
        };
        let mut walk = Walk {
            held: OwnLocks::of(alloc, windows, rank, table.epochs())?,
            sides: Sides::new(alloc),
            own_lists: KeyLists::new(alloc),
            target_lists: KeyLists::new(alloc),
            next: 0,
        };
        let spans = all_spans(alloc, from, calls, table.sound(), &mut walk)?;
        Ok(RankSpans {
            spans,
            own_lists: walk.own_lists,
            target_lists: walk.target_lists,
        })
    }

    /// How many calls access memory.
    pub fn len(&self) -> usize
        ensures { (own : Origin) → Represents own self.now → result ≡ length (spanned_calls own) }
    {
        self.spans.len()
    }

    /// The number of the call at an index among those that access memory.
    pub fn call(&self, index: usize) -> u32
        requires { (own : Origin) × Represents own self.now × index < length (spanned_calls own) }
        ensures { (own : Origin) → Represents own self.now → slice_get (spanned_calls own) index ≡ Some result }
    {
        self.spans[index].call
    }

    /// The access of the call at an index in a role, if it makes one in that role: it makes none of no bytes. The calls are those of the rank, and of what they
    /// do these are the windows and parts.
    pub fn access<'a>(
        &'a self,
        rank: Rank,
        calls: &'a CallList,
        parts: &PartTable,
        index: usize,
        role: Role,
    ) -> Option<Access<'a>>
        requires { (own : Origin) × Represents own self.now × index < length (spanned_calls own) × AreAskable own calls.now parts.now }
        ensures { (own : Origin) (number : ℕ) (call : Call) → Represents own self.now → AreAskable own calls.now parts.now → own.rank ≡ rank
            → slice_get (spanned_calls own) index ≡ Some number → slice_get own.sound number ≡ Some call → result ≡ access_of own number call role }
    {
        let spans = self.at(index);
        let call = calls.get(spans.call as usize);
        let what = calls.what_number(spans.call as usize);
        self.access_of(
            rank,
            call,
            parts.window(what),
            parts.part(what),
            spans,
            role,
        )
    }

    /// The spans at an index.
    fn at(&self, index: usize) -> CallSpans
        requires { index < length self.now.spans.items }
        ensures { slice_get self.now.spans.items index ≡ Some result }
    {
        self.spans[index]
    }

    /// The access of a call in a role, by its spans, the window that it is on, and the part of its target.
    fn access_of<'a>(
        &'a self,
        rank: Rank,
        call: CallRef<'a>,
        window: Option<WindowId>,
        part: Option<Part>,
        spans: CallSpans,
        role: Role,
    ) -> Option<Access<'a>>
        requires buffers { HasBuffers (what_of call.what) }
        requires space { IfSome part (λ part. part.base + part.size ≤ address_limit) }
        requires small { spans.call < 2 ^ 31 }
        requires listed { (own : Origin) × AreSpansOf own self.now.own_lists self.now.target_lists spans }
        ensures { (own : Origin) → AreSpansOf own self.now.own_lists self.now.target_lists spans → slice_get own.sound spans.call ≡ Some (call_of call.entry) → own.rank ≡ rank
            → window ≡ number_on own.windows (what_of call.entry.what) → part ≡ part_on own.windows (what_of call.entry.what) → result ≡ access_of own spans.call (call_of call.entry) role }
    {
        let touch = touch_at(rank, call.what, window, part, role)?;
        let span = self.span(spans, role)?;
        Some(touch.access(rank, spans.call, call, span))
    }

    /// The span of what a call does in a role, by those that are kept of it.
    fn span(&self, spans: CallSpans, role: Role) -> Option<Span<'_>>
        requires { (own : Origin) × AreSpansOf own self.now.own_lists self.now.target_lists spans }
        ensures { (own : Origin) (call : Call) → AreSpansOf own self.now.own_lists self.now.target_lists spans → slice_get own.sound spans.call ≡ Some call → result ≡ span_of own spans.call call role }
    {
        if is_at_target(role) {
            target_in(&self.target_lists, spans.target)
        } else {
            Some(own_in(&self.own_lists, spans.own))
        }
    }
}

/// Whether a call does something at its target, in this role.
fn is_at_target(role: Role) -> bool
    ensures { result ≡ is_at_target role }
{
    matches!(role, Role::Target)
}

/// The span of memory of the rank itself, with its list.
fn own_in(lists: &KeyLists, kept: OwnSpan) -> Span<'_>
    requires { (span : Option Touched) × IsOwn lists.now span kept }
    ensures { (span : Option Touched) → IsOwn lists.now span kept → Some result ≡ span }
{
    Span {
        opening: None,
        done: kept.done,
        locks: lists.list(kept.locks),
    }
}

/// The span at a target, with its list, if there is one.
fn target_in(lists: &KeyLists, kept: Option<TargetSpan>) -> Option<Span<'_>>
    requires { (span : Option Touched) × IsAtTarget lists.now span kept }
    ensures { (span : Option Touched) → IsAtTarget lists.now span kept → result ≡ span }
{
    match kept {
        Some(kept) => Some(Span {
            opening: kept.opening,
            done: kept.done,
            locks: lists.list(kept.locks),
        }),
        None => None,
    }
}
