//! What the return of a call waits for.
ghost use Rattle.std.specs.Prelude.{◌≡◌, ◌∷◌, [], ℕ, List, None, Some, false, map, slice_get, IfOk, OnOk};
ghost use Rattle.rma_call.specs.Call.{Call, call_of, what_of};
ghost use Rattle.rma_exposure.specs.Opening.{waited};
ghost use Rattle.rma_message.specs.Source.{source_of};
ghost use Rattle.rma_match.specs.Membership.{members};
ghost use Rattle.rma_match.specs.Source.{others, awaited_in, round_entry, round_entries, complete_entry, complete_entries, expwait_entries, message_entries, sources_of};
ghost use Rattle.rma_match.specs.inside.Awaited.{with_more};
ghost use Rattle.rma_match.specs.inside.Live.{Represents};

use crate::awaited::{Awaited, entry_at};
use crate::live_match::LiveMatch;
use rma_base::{Memory, Name, Point, Rank, RankSet, Sequence};
use rma_call::{CallRef, EpochCall, WhatRef};
use rma_message::MessageSource;
use rma_round::{Rooted, rooted_of, waits_for_all};
use std::alloc::Global;

impl LiveMatch {
    /// The entries of the calls that the return of a call waits for, which is handed in with its number: by rank, or none where
    /// not all of them are taken yet.
    ///
    /// # Errors
    ///
    /// `Memory` where there is none left.
    pub fn sources(
        &self,
        alloc: Global,
        rank: Rank,
        number: u32,
        call: CallRef<'_>,
    ) -> Result<Option<Sequence<Point>>, Memory>
        ensures { IfOk result (λ sources. (ranks : ℕ) (calls : ℕ → List Call) → Represents ranks calls self.now
            → slice_get (calls rank.0) number ≡ Some (call_of call.entry) → sources ≡ sources_of ranks calls rank.0 number) }
    {
        let mut awaited = Awaited::new(alloc);
        self.add_round(rank, number, call, &mut awaited)?;
        self.add_completes(rank, number, call, &mut awaited)?;
        self.add_send(rank, number, &mut awaited)?;
        Ok(awaited.finish())
    }

    /// Adds what the return of a call waits for in its round.
    fn add_round(
        &self,
        rank: Rank,
        number: u32,
        call: CallRef<'_>,
        awaited: &mut Awaited,
    ) -> Result<(), Memory>
        ensures { OnOk result ((ranks : ℕ) (calls : ℕ → List Call) → Represents ranks calls self.now
            → slice_get (calls rank.0) number ≡ Some (call_of call.entry)
            → awaited.new ≡ with_more awaited.old (round_entries ranks calls rank.0 number (what_of call.entry.what))) }
    {
        if waits_for_all(call.what) {
            return self.add_others(rank, number, call, awaited);
        }
        match rooted_of(call.what) {
            Some(at) => self.add_rooted(rank, number, call, at, awaited),
            None => Ok(()),
        }
    }

    /// Adds what the return of a call waits for that is part of a movement of data from a root or to it.
    fn add_rooted(
        &self,
        rank: Rank,
        number: u32,
        call: CallRef<'_>,
        at: Rooted<'_>,
        awaited: &mut Awaited,
    ) -> Result<(), Memory>
        ensures { OnOk result ((ranks : ℕ) (calls : ℕ → List Call) → Represents ranks calls self.now
            → slice_get (calls rank.0) number ≡ Some (call_of call.entry)
            → awaited.new ≡ with_more awaited.old (map (round_entry calls rank.0 number)
            (awaited_in (others rank.0 (members ranks (calls rank.0) (what_of call.entry.what))) rank.0 (record { to_root = at.entry.to_root; root = at.entry.root; comm = at.entry.comm.now })))) }
    {
        if at.root.0 == rank.0 {
            if at.to_root {
                return self.add_others(rank, number, call, awaited);
            }
            return Ok(());
        }
        if at.to_root {
            return Ok(());
        }
        awaited.add(self.round_entry(rank, number, call, at.root))
    }

    /// Adds the entries of the calls of all other members of a round.
    fn add_others(
        &self,
        rank: Rank,
        number: u32,
        call: CallRef<'_>,
        awaited: &mut Awaited,
    ) -> Result<(), Memory>
        ensures { OnOk result ((ranks : ℕ) (calls : ℕ → List Call) → Represents ranks calls self.now
            → slice_get (calls rank.0) number ≡ Some (call_of call.entry)
            → awaited.new ≡ with_more awaited.old (map (round_entry calls rank.0 number) (others rank.0 (members ranks (calls rank.0) (what_of call.entry.what))))) }
    {
        for member in self.groups.members(rank, call.what) {
            self.add_other(rank, number, call, Rank(*member), awaited)?;
            if awaited.is_lacking() {
                return Ok(());
            }
        }
        Ok(())
    }

    /// Adds the entry of the call of a member of a round, if that is another rank.
    fn add_other(
        &self,
        rank: Rank,
        number: u32,
        call: CallRef<'_>,
        member: Rank,
        awaited: &mut Awaited,
    ) -> Result<(), Memory>
        ensures { OnOk result ((ranks : ℕ) (calls : ℕ → List Call) → Represents ranks calls self.now
            → slice_get (calls rank.0) number ≡ Some (call_of call.entry)
            → awaited.new ≡ with_more awaited.old (map (round_entry calls rank.0 number) (others rank.0 (member.0 ∷ [])))) }
    {
        if member.0 == rank.0 {
            return Ok(());
        }
        awaited.add(self.round_entry(rank, number, call, member))
    }

    /// The entry of the call of another rank that is of the round of a call.
    fn round_entry(&self, rank: Rank, number: u32, call: CallRef<'_>, other: Rank) -> Option<Point>
        ensures { (ranks : ℕ) (calls : ℕ → List Call) → Represents ranks calls self.now
            → slice_get (calls rank.0) number ≡ Some (call_of call.entry) → result ≡ round_entry calls rank.0 number other.0 }
    {
        entry_at(other, self.rounds.partner(rank, number, call, other))
    }

    /// Adds what the return of a call waits for, if it is an expwait.
    fn add_completes(
        &self,
        rank: Rank,
        number: u32,
        call: CallRef<'_>,
        awaited: &mut Awaited,
    ) -> Result<(), Memory>
        ensures { OnOk result ((ranks : ℕ) (calls : ℕ → List Call) → Represents ranks calls self.now
            → slice_get (calls rank.0) number ≡ Some (call_of call.entry)
            → awaited.new ≡ with_more awaited.old (expwait_entries calls rank.0 number)) }
    {
        if !is_expwait(call.what) {
            return Ok(());
        }
        let Some(post) = self.exposures.post_of(rank, number) else {
            return Ok(());
        };
        match self.exposures.posted(rank, post) {
            Some((window, group)) => self.add_origins(rank, post, window, group, awaited),
            None => Ok(()),
        }
    }

    /// Adds the entries of the completes of the origins of a post.
    fn add_origins(
        &self,
        rank: Rank,
        post: u32,
        window: &Name,
        group: &RankSet,
        awaited: &mut Awaited,
    ) -> Result<(), Memory>
        ensures { OnOk result ((ranks : ℕ) (calls : ℕ → List Call) → Represents ranks calls self.now
            → awaited.new ≡ with_more awaited.old (complete_entries calls rank.0 post (record { window = window.now; group = group.now }))) }
    {
        for origin in group.numbers() {
            awaited.add(self.complete_entry(rank, post, window, Rank(*origin)))?;
            if awaited.is_lacking() {
                return Ok(());
            }
        }
        Ok(())
    }

    /// The entry of the complete of the origin's start that matches a post.
    fn complete_entry(&self, rank: Rank, post: u32, window: &Name, origin: Rank) -> Option<Point>
        ensures { (ranks : ℕ) (calls : ℕ → List Call) → Represents ranks calls self.now
            → result ≡ complete_entry calls rank.0 post window.now origin.0 }
    {
        entry_at(
            origin,
            self.exposures.complete_for(rank, post, window, origin),
        )
    }

    /// Adds the send that the return of a call waits for, if the call completes a receive.
    fn add_send(&self, rank: Rank, number: u32, awaited: &mut Awaited) -> Result<(), Memory>
        ensures { OnOk result ((ranks : ℕ) (calls : ℕ → List Call) → Represents ranks calls self.now
            → awaited.new ≡ with_more awaited.old (message_entries (source_of calls rank.0 number))) }
    {
        match self.messages.source(rank, number) {
            MessageSource::NoReceive => Ok(()),
            MessageSource::Unknown => awaited.add(None),
            MessageSource::From(point) => awaited.add(Some(point)),
        }
    }
}

/// Whether a call is an expwait.
fn is_expwait(what: WhatRef<'_>) -> bool
    ensures { result ≡ false → waited (what_of what.entry) ≡ None }
{
    match what {
        WhatRef::Epoch(EpochCall::Expwait { .. }) => true,
        _ => false,
    }
}
