//! Calls that return only after all calls of their round are entered, and the meets that they give.
ghost use Rattle.std.specs.Prelude.{◌≡◌, ◌<◌, ◌+◌, ◌++◌, [], false, slice_get, IfOk, OnOk};
ghost use Rattle.std.specs.List.{cons_option, filter_map, list_any};
ghost use Rattle.std.specs.Option.{option_map_or};
ghost use Rattle.rma_call.specs.Call.{what_of};
ghost use Rattle.rma_round.specs.Meet.{waits_for_all};
ghost use Rattle.rma_round.specs.inside.Rounds.{row_entry, row_entries};
ghost use Rattle.rma_round.specs.inside.Met.{from_round, member_in, member_waits, met, turn_start};

use crate::name_rounds::RankRounds;
use rma_base::{Memory, Sequence};
use rma_call::{CallList, EpochCall, FrameCall, MovingCall, RankCalls, WhatRef, WindowCall};
use rma_link::{Links, Meet, Member};
use std::alloc::Global;

/// One of the turns in which the rounds on each name are gone through.
#[derive(Clone, Copy)]
pub(crate) struct Turn {
    /// Its number.
    pub(crate) number: usize,
    /// How many turns there are.
    pub(crate) of: usize,
}

/// Appends the meet of each round of this turn of which a call waits for all, where there are so many rounds.
pub(crate) fn push_rounds(
    alloc: Global,
    ranks: &[RankCalls],
    rows: &[RankRounds<'_>],
    rounds: usize,
    turn: Turn,
    links: &mut Links,
) -> Result<(), Memory>
    requires turn { turn.number < turn.of }
    ensures edges { OnOk result (links.new.edges ≡ links.old.edges) }
    ensures meets { OnOk result (links.new.meets ≡ links.old.meets
        ++ from_round (λ place. met ranks.now (filter_map (member_in place) (row_entries rows.now)))
        (turn_start turn.of rounds turn.number) (turn_start turn.of rounds (turn.number + 1))) }
{
    let from = turn_start(turn.of, rounds, turn.number);
    let to = turn_start(turn.of, rounds, turn.number + 1);
    for k in 0..to.saturating_sub(from) {
        let calls = members(alloc, rows, from + k)?;
        push_meet(ranks, calls, links)?;
    }
    Ok(())
}

/// With how many rounds a turn begins, of so many turns, where there are so many rounds: the last one has what is left.
fn turn_start(turns: usize, rounds: usize, turn: usize) -> usize
    requires { 0 < turns }
    ensures { result ≡ turn_start turns rounds turn }
{
    if turn == turns {
        rounds
    } else {
        turn.saturating_mul(rounds / turns).min(rounds)
    }
}

/// The calls of the round of this number, by rank.
fn members(alloc: Global, rows: &[RankRounds<'_>], place: usize) -> Result<Sequence<Member>, Memory>
    ensures { IfOk result (λ members. members ≡ filter_map (member_in place) (row_entries rows.now)) }
{
    let mut members = Sequence::with_capacity(alloc, rows.len())?;
    for row in rows {
        push_member(&mut members, *row, place)?;
    }
    Ok(members)
}

/// Appends the call of a rank in the round of this number, if it has one.
fn push_member(
    members: &mut Sequence<Member>,
    row: RankRounds<'_>,
    place: usize,
) -> Result<(), Memory>
    ensures { OnOk result (members.new ≡ members.old ++ cons_option (member_in place (row_entry row.entry)) []) }
{
    match row.numbers.get(place) {
        Some(call) => members.push(Member {
            rank: row.rank,
            call: *call,
        }),
        None => Ok(()),
    }
}

/// Appends the meet of the calls of a round, if any of them waits for all.
fn push_meet(ranks: &[RankCalls], calls: Sequence<Member>, links: &mut Links) -> Result<(), Memory>
    ensures edges { OnOk result (links.new.edges ≡ links.old.edges) }
    ensures meets { OnOk result (links.new.meets ≡ links.old.meets ++ met ranks.now calls) }
{
    if calls.len() < 2 || !any_waits(ranks, calls.as_slice()) {
        return Ok(());
    }
    links.push_meet(Meet { calls })
}

/// Whether any call of a round waits for all.
fn any_waits(ranks: &[RankCalls], members: &[Member]) -> bool
    ensures { result ≡ list_any (member_waits ranks.now) members.now }
{
    for member in members {
        if member_waits(ranks, *member) {
            return true;
        }
    }
    false
}

/// Whether a call of a round waits for all.
fn member_waits(ranks: &[RankCalls], member: Member) -> bool
    ensures { result ≡ member_waits ranks.now member }
{
    match ranks.get(member.rank.0 as usize) {
        Some(own) => waits_at(own.calls(), member.call),
        None => false,
    }
}

/// Whether the call of this number waits for all.
fn waits_at(calls: &CallList, number: u32) -> bool
    ensures { result ≡ option_map_or (λ call. waits_for_all call.what) (slice_get calls.now.calls number) false }
{
    let i = number as usize;
    i < calls.len() && waits_for_all(calls.what(calls.what_number(i)))
}

/// Whether a call returns only after all calls of its round are entered.
pub fn waits_for_all(what: WhatRef<'_>) -> bool
    ensures { result ≡ waits_for_all (what_of what.entry) }
{
    match what {
        WhatRef::Frame(FrameCall::Barrier { .. }) | WhatRef::Window(WindowCall::Free { .. }) => {
            true
        }
        WhatRef::Epoch(EpochCall::Fence { assertions, .. }) => !assertions.noprecede,
        WhatRef::Moving(
            MovingCall::Allreduce { bytes, .. }
            | MovingCall::Allgather { bytes, .. }
            | MovingCall::Alltoall { bytes, .. },
        ) => *bytes != 0,
        _ => false,
    }
}
