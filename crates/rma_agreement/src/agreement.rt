//! Runs in whose rounds nothing is at fault.
ghost use Rattle.std.specs.Prelude.{◌≡◌, ◌≤◌, ◌<◌, ℕ, List, [], Some, true, slice_get, length, nat_le, All, IsSome, IfSome, IfOk};
ghost use Rattle.std.specs.List.{list_all};
ghost use Rattle.rma_call.specs.Call.{Call, what_of};
ghost use Rattle.rma_run.specs.Run.{IsRun, calls_of};
ghost use Rattle.rma_round.specs.inside.Rounds.{AreOfKind, AreOnName, Represents, calls_in};
ghost use Rattle.rma_agreement.specs.Argument.{arguments_of, transfer_of};
ghost use Rattle.rma_agreement.specs.Collective.{round_calls};
ghost use Rattle.rma_agreement.specs.Round.{round_differences};
ghost use Rattle.rma_agreement.specs.inside.Agreement.{AgreeOn, AllAgree, IsAlike, IsRegular, ListsAgree, RowAgrees};
ghost use Rattle.rma_member.specs.Member.{members};
ghost use Rattle.rma_member.specs.inside.Member.{AreMembers};
ghost use Rattle.rma_agreement.specs.inside.Place.{SharePlaces};
ghost use Rattle.rma_agreement.specs.Balance.{AreBalanced, IsBalanced};
ghost use Rattle.rma_round.specs.declared.kind.Kind.{Kind};
ghost use Rattle.rma_round.specs.declared.kind.Kind.TheVariants as kind;

use crate::argument::transfer_of;
use crate::place::share_places;
use rma_base::{Memory, Rank};
use rma_call::{CallList, EpochCall, FrameCall, MovingCall, RankCalls, WhatRef, WindowCall};
use rma_member::Members;
use rma_round::{Kind, KindRounds, NameRounds, RankRounds, Rounds};
use std::alloc::Global;

/// What two calls do, by its numbers.
#[derive(Clone, Copy)]
struct Pair {
    /// What the call of the first rank does.
    first: u32,
    /// What the call of the other rank does.
    own: u32,
}

/// Whether each member makes each call of a round, and all agree. The tables of the rounds tell it, so a run without such faults is
/// not walked once more.
///
/// # Errors
///
/// `Memory` where memory ran out.
pub fn are_regular(
    alloc: Global,
    ranks: &[RankCalls],
    rounds: &Rounds,
    members: &Members,
) -> Result<bool, Memory>
    requires run { IsRun ranks.now }
    requires rounds { Represents (calls_of ranks.now) rounds.now }
    requires members { AreMembers ranks.now members.now }
    ensures balanced { IfOk result (λ regular. regular ≡ true → (kind : Kind) → AreBalanced kind ranks.now) }
    ensures agree { IfOk result (λ regular. regular ≡ true → (kind : Kind) → round_differences kind (round_calls kind ranks.now) ≡ []) }
{
    each_is_regular(alloc, ranks, rounds, members)
}

/// The same, of each kind.
fn each_is_regular(
    alloc: Global,
    ranks: &[RankCalls],
    rounds: &Rounds,
    members: &Members,
) -> Result<bool, Memory>
    requires run { IsRun ranks.now }
    requires rounds { Represents (calls_of ranks.now) rounds.now }
    requires members { AreMembers ranks.now members.now }
    ensures collectives { IfOk result (λ regular. regular ≡ true → IsRegular kind.Collective ranks.now) }
    ensures frees { IfOk result (λ regular. regular ≡ true → IsRegular kind.Free ranks.now) }
    ensures fences { IfOk result (λ regular. regular ≡ true → IsRegular kind.Fence ranks.now) }
    ensures movings { IfOk result (λ regular. regular ≡ true → IsRegular kind.Moving ranks.now) }
{
    if !share_places(alloc, rounds)? {
        return Ok(false);
    }
    let collectives = is_regular(
        alloc,
        Kind::Collective,
        ranks,
        rounds.of_kind(Kind::Collective),
        members,
    )?;
    let frees = is_regular(
        alloc,
        Kind::Free,
        ranks,
        rounds.of_kind(Kind::Free),
        members,
    )?;
    let fences = is_regular(
        alloc,
        Kind::Fence,
        ranks,
        rounds.of_kind(Kind::Fence),
        members,
    )?;
    let movings = is_regular(
        alloc,
        Kind::Moving,
        ranks,
        rounds.of_kind(Kind::Moving),
        members,
    )?;
    Ok(collectives && frees && fences && movings)
}

/// Whether that is so of a kind of calls, where those of each round have the same place.
fn is_regular(
    alloc: Global,
    kind: Kind,
    ranks: &[RankCalls],
    rounds: &KindRounds,
    members: &Members,
) -> Result<bool, Memory>
    requires run { IsRun ranks.now }
    requires rounds { AreOfKind kind (calls_of ranks.now) rounds.now }
    requires members { AreMembers ranks.now members.now }
    requires places { (name : List ℕ) → SharePlaces kind (calls_of ranks.now) name }
    ensures { IfOk result (λ regular. regular ≡ true → IsRegular kind ranks.now) }
{
    for i in 0..rounds.len() {
        let own = members.of(kind, rounds.name(i));
        if !is_regular_on(alloc, ranks, rounds.rounds(i), own)? {
            return Ok(false);
        }
    }
    Ok(true)
}

/// Whether that is so of the calls on one name, which has these members.
fn is_regular_on(
    alloc: Global,
    ranks: &[RankCalls],
    rounds: &NameRounds,
    own: &[u32],
) -> Result<bool, Memory>
    ensures { IfOk result (λ regular. regular ≡ true → (kind : Kind) (name : List ℕ) → AreOnName kind name (calls_of ranks.now) rounds.now → own.now ≡ members kind ranks.now name
        → SharePlaces kind (calls_of ranks.now) name → IsBalanced kind ranks.now name × AgreeOn kind ranks.now name) }
{
    let rows = rounds.ranks(alloc)?;
    Ok(is_balanced(rounds, own) && all_agree(ranks, rows.as_slice()))
}

/// Whether each of these ranks makes as many calls as any rank does.
fn is_balanced(rounds: &NameRounds, members: &[u32]) -> bool
    ensures { result ≡ true → (most : ℕ) × ((rank : ℕ) → length (calls_in rounds.now rank) ≤ most) × (list_all (λ m. nat_le most (length (calls_in rounds.now m))) members.now ≡ true) }
{
    have_calls(rounds, members, rounds.len())
}

/// Whether each of these ranks makes so many calls.
fn have_calls(rounds: &NameRounds, members: &[u32], number: usize) -> bool
    ensures { result ≡ list_all (λ m. nat_le number (length (calls_in rounds.now m))) members.now }
{
    members.iter().all(|m| number <= rounds.of(Rank(*m)).len())
}

/// Whether the calls of all ranks agree with those of the first, round by round, but for their places.
fn all_agree(ranks: &[RankCalls], rows: &[RankRounds<'_>]) -> bool
    ensures { result ≡ true → 0 < length rows.now → AllAgree ranks.now rows.now }
{
    match rows.first() {
        Some(first) => agree_with(ranks, *first, rows),
        None => true,
    }
}

/// Whether the calls of all ranks agree with those of one, round by round, but for their places.
fn agree_with(ranks: &[RankCalls], first: RankRounds<'_>, rows: &[RankRounds<'_>]) -> bool
    ensures { result ≡ true → All (RowAgrees ranks.now first.entry) rows.now }
{
    for i in 0..rows.len() {
        let row = rows[i];
        if !row_agrees(ranks, first, row) {
            return false;
        }
    }
    true
}

/// Whether the calls of one rank agree with those of another, round by round, but for their places.
fn row_agrees(ranks: &[RankCalls], first: RankRounds<'_>, row: RankRounds<'_>) -> bool
    ensures { result ≡ true → RowAgrees ranks.now first.entry row.entry }
{
    let (Some(first_rank), Some(own_rank)) = (
        ranks.get(first.rank.0 as usize),
        ranks.get(row.rank.0 as usize),
    ) else {
        return false;
    };
    if row.numbers.len() > first.numbers.len() {
        return false;
    }
    lists_agree(
        first_rank.calls(),
        first.numbers,
        own_rank.calls(),
        row.numbers,
    )
}

/// Whether the calls of one list that have these numbers agree with those of another, round by round, but for their places.
fn lists_agree(first_calls: &CallList, first: &[u32], calls: &CallList, own: &[u32]) -> bool
    requires { length own.now ≤ length first.now }
    ensures { result ≡ true → ListsAgree first_calls.now.calls first.now calls.now.calls own.now }
{
    let mut known = None;
    for k in 0..own.len() {
        known = agree_at(first_calls, first[k], calls, own[k], known);
        if known.is_none() {
            return false;
        }
    }
    true
}

/// What two calls do, by its numbers, if they agree but for their places.
fn agree_at(
    first_calls: &CallList,
    first: u32,
    calls: &CallList,
    own: u32,
    known: Option<Pair>,
) -> Option<Pair>
    requires { IfSome known (IsAlike first_calls.now.whats calls.now.whats) }
    ensures there { IsSome result → first < length first_calls.now.calls }
    ensures agree { IsSome result → (one other : Call) → slice_get first_calls.now.calls first ≡ Some one → slice_get calls.now.calls own ≡ Some other → arguments_of 0 one.what ≡ arguments_of 0 other.what }
    ensures known { IfSome result (IsAlike first_calls.now.whats calls.now.whats) }
{
    let (first, own) = (first as usize, own as usize);
    if first >= first_calls.len() || own >= calls.len() {
        return None;
    }
    let pair = Pair {
        first: first_calls.what_number(first),
        own: calls.what_number(own),
    };
    if is_alike(first_calls, calls, pair, known) {
        Some(pair)
    } else {
        None
    }
}

/// Whether calls agree that do this, but for their places. What is known to agree is not compared again.
fn is_alike(first_calls: &CallList, calls: &CallList, pair: Pair, known: Option<Pair>) -> bool
    requires first { pair.first < length first_calls.now.whats }
    requires own { pair.own < length calls.now.whats }
    requires known { IfSome known (IsAlike first_calls.now.whats calls.now.whats) }
    ensures { result ≡ true → IsAlike first_calls.now.whats calls.now.whats pair }
{
    is_known(known, pair) || agree(first_calls.what(pair.first), calls.what(pair.own))
}

/// Whether a pair is the one that is known.
fn is_known(known: Option<Pair>, pair: Pair) -> bool
    ensures { result ≡ true → known ≡ Some pair }
{
    match known {
        Some(known) => known.first == pair.first && known.own == pair.own,
        None => false,
    }
}

/// Whether two calls of one kind agree, but for their places.
fn agree(first: WhatRef<'_>, own: WhatRef<'_>) -> bool
    ensures { result ≡ true → arguments_of 0 (what_of first.entry) ≡ arguments_of 0 (what_of own.entry) }
{
    match (first, own) {
        (WhatRef::Frame(FrameCall::Barrier { .. }), WhatRef::Frame(FrameCall::Barrier { .. })) => {
            true
        }
        (
            WhatRef::Window(WindowCall::Create { window: first, .. }),
            WhatRef::Window(WindowCall::Create { window: own, .. }),
        ) => own == first,
        (WhatRef::Window(WindowCall::Free { .. }), WhatRef::Window(WindowCall::Free { .. })) =>
            true,
        (
            WhatRef::Epoch(
                EpochCall::Fence {
                    assertions: first,
                    ..
                },
            ),
            WhatRef::Epoch(
                EpochCall::Fence {
                    assertions: own,
                    ..
                },
            ),
        ) => first.noprecede == own.noprecede && first.nosucceed == own.nosucceed,
        (WhatRef::Moving(first), WhatRef::Moving(own)) => move_alike(first, own),
        _ => false,
    }
}

/// Whether two calls move data alike, but for their places.
fn move_alike(first: &MovingCall, own: &MovingCall) -> bool
    ensures { result ≡ true → transfer_of 0 first.now ≡ transfer_of 0 own.now }
{
    transfer_of(own, 0).agrees_with(&transfer_of(first, 0))
}
