//! The epochs of one rank.
ghost use Rattle.std.specs.Prelude.{◌≡◌, ◌<◌, ◌≤◌, ◌+◌, ◌++◌, ◌∷◌, [], List, None, length, take, All, IfOk, IfSome, OnOk};
ghost use Rattle.rma_base.specs.Limits.{fed_limit};
ghost use Rattle.rma_call.specs.Call.{Call, what_of};
ghost use Rattle.rma_exposure.specs.declared.side.Side.{Side};
ghost use Rattle.rma_exposure.specs.inside.Places.{IsWindowPlace, ArePlaces, AllStay};
ghost use Rattle.rma_exposure.specs.inside.Epochs.{HaveNoEpochs, AreEpochs, AreOfRank};

use crate::side::{Side, opens_or_closes};
use crate::side_epochs::SideEpochs;
use rma_base::Memory;
use rma_call::{CallList, EpochCall, WhatRef};
use std::alloc::Global;

/// The epochs of one rank.
#[derive(Drop)]
pub(crate) struct RankEpochs {
    /// Its exposure epochs.
    posts: SideEpochs,
    /// Its access epochs.
    starts: SideEpochs,
}

impl RankEpochs {
    /// None.
    pub(crate) fn new(alloc: Global) -> RankEpochs
        ensures { (calls : List Call) → ((side : Side) → HaveNoEpochs side calls) → AreOfRank calls result }
    {
        RankEpochs {
            posts: SideEpochs::new(alloc),
            starts: SideEpochs::new(alloc),
        }
    }

    /// Those of all calls of a rank.
    pub(crate) fn of_calls(alloc: Global, calls: &CallList) -> Result<RankEpochs, Memory>
        requires { length calls.now.calls ≤ fed_limit }
        ensures { IfOk result (AreOfRank calls.now.calls) }
    {
        let mut epochs = RankEpochs::new(alloc);
        let mut places = no_places(alloc, calls.whats())?;
        for i in 0..calls.len() {
            epochs.take_next(alloc, calls, i, &mut places)?;
        }
        Ok(epochs)
    }

    /// Takes the next call of a list. The places of windows that are known stand under the numbers of what calls do.
    fn take_next(
        &mut self,
        alloc: Global,
        calls: &CallList,
        i: usize,
        places: &mut Vec<Option<usize>>,
    ) -> Result<(), Memory>
        requires within { i < length calls.now.calls }
        requires few { length calls.now.calls ≤ fed_limit }
        requires each { length places.old.items ≡ length calls.now.whats }
        requires known { ArePlaces self.old calls.now.whats places.old.items }
        ensures each { OnOk result (length places.new.items ≡ length calls.now.whats) }
        ensures known { OnOk result (ArePlaces self.new calls.now.whats places.new.items) }
        ensures epochs { OnOk result (AreOfRank (take i calls.now.calls) self.old → AreOfRank (take (i + 1) calls.now.calls) self.new) }
    {
        let number = calls.what_number(i);
        let what = calls.what(number);
        if opens_or_closes(what) {
            let known = places[number as usize];
            places[number as usize] = self.take(alloc, known, i as u32, what)?;
        }
        Ok(())
    }

    /// Takes the next call of the rank, which has this number and does this, and answers the place of its window, if that has
    /// one. It is handed in where it is known.
    pub(crate) fn take(
        &mut self,
        alloc: Global,
        known: Option<usize>,
        number: u32,
        what: WhatRef<'_>,
    ) -> Result<Option<usize>, Memory>
        requires { IfSome known (IsWindowPlace self.old (what_of what)) }
        ensures epochs { OnOk result ((calls : List Call) (call : Call) → length calls ≡ number → what_of what.entry ≡ call.what → AreOfRank calls self.old → AreOfRank (calls ++ call ∷ []) self.new) }
        ensures place { IfOk result (λ place. IfSome place (IsWindowPlace self.new (what_of what.entry))) }
        ensures stay { OnOk result (AllStay self.old self.new) }
    {
        let WhatRef::Epoch(epoch) = what else {
            return Ok(None);
        };
        match epoch {
            EpochCall::Post {
                window,
                origins,
                ..
            } => Ok(Some(self.posts.add(alloc, known, number, window, origins)?)),
            EpochCall::Start {
                window,
                targets,
                ..
            } => Ok(Some(self.starts.add(alloc, known, number, window, targets)?)),
            EpochCall::Expwait { window } => self.posts.close(known, number, window),
            EpochCall::Complete { window } => self.starts.close(known, number, window),
            _ => Ok(None),
        }
    }

    /// Its epochs of the side.
    pub(crate) fn of(&self, side: Side) -> &SideEpochs
        ensures { (calls : List Call) → AreOfRank calls self.now → AreEpochs side calls result.now }
    {
        match side {
            Side::Exposure => &self.posts,
            Side::Access => &self.starts,
        }
    }
}

/// No place for each number of what calls do.
fn no_places(alloc: Global, whats: u32) -> Result<Vec<Option<usize>>, Memory>
    ensures len { IfOk result (λ places. length places.items ≡ whats) }
    ensures none { IfOk result (λ places. All (λ place. place ≡ None) places.items) }
{
    let mut places = Vec::new(alloc);
    for _ in 0..whats {
        places.push(None)?;
    }
    Ok(places)
}
