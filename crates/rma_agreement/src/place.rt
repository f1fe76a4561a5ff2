//! Rounds whose calls stand at the same places among the barriers and the creations of windows of their ranks.
ghost use Rattle.std.specs.Prelude.{◌≡◌, ◌≤◌, ◌<◌, ℕ, List, true, length, nat_lt, option_copied, All, IfOk};
ghost use Rattle.std.specs.List.{take_while};
ghost use Rattle.rma_call.specs.Call.{Call};
ghost use Rattle.rma_round.specs.declared.kind.Kind.TheVariants as kind;
ghost use Rattle.rma_round.specs.inside.Rounds.{AreFoundOnName, AreOnName, Represents};
ghost use Rattle.rma_agreement.specs.inside.Place.{AllPlaced, Ascend, HavePlaces, RowIsPlaced, SharePlaces, place_among, place_in_round};

use rma_base::Memory;
use rma_round::{Kind, NameRounds, RankRounds, Rounds};
use std::alloc::Global;

/// Whether the calls of each round that moves data have the same place among the barriers and the creations of windows that
/// their ranks make on the communicator.
pub(crate) fn share_places(alloc: Global, rounds: &Rounds) -> Result<bool, Memory>
    ensures { IfOk result (λ same. same ≡ true → (calls : ℕ → List Call) → Represents calls rounds.now → (name : List ℕ) → SharePlaces kind.Moving calls name) }
{
    let movings = rounds.of_kind(Kind::Moving);
    let collectives = rounds.of_kind(Kind::Collective);
    for i in 0..movings.len() {
        let others = collectives.find(movings.name(i));
        if !share_places_on(alloc, movings.rounds(i), others)? {
            return Ok(false);
        }
    }
    Ok(true)
}

/// Whether that is so on one communicator, of which these are the barriers and creations, if there are any.
fn share_places_on(
    alloc: Global,
    movings: &NameRounds,
    others: Option<&NameRounds>,
) -> Result<bool, Memory>
    ensures { IfOk result (λ same. same ≡ true → (calls : ℕ → List Call) (name : List ℕ) → AreOnName kind.Moving name calls movings.now
        → AreFoundOnName kind.Collective name calls (option_copied others.entry) → SharePlaces kind.Moving calls name) }
{
    let Some(others) = others else {
        return Ok(true);
    };
    let rows = movings.ranks(alloc)?;
    Ok(rows_are_placed(rows.as_slice(), others))
}

/// Whether the calls of all ranks have the places of those of the first, round by round.
fn rows_are_placed(rows: &[RankRounds<'_>], others: &NameRounds) -> bool
    ensures { result ≡ true → 0 < length rows.now → AllPlaced others.now rows.now }
{
    match rows.first() {
        Some(first) => are_placed_as(*first, rows, others),
        None => true,
    }
}

/// Whether the calls of all ranks have the places of those of one, round by round.
fn are_placed_as(first: RankRounds<'_>, rows: &[RankRounds<'_>], others: &NameRounds) -> bool
    ensures { result ≡ true → All (RowIsPlaced others.now first.entry) rows.now }
{
    let first_others = others.of(first.rank);
    for i in 0..rows.len() {
        let row = rows[i];
        if !have_places(
            first_others,
            first.numbers,
            others.of(row.rank),
            row.numbers,
        ) {
            return false;
        }
    }
    true
}

/// Whether the calls of one rank have the places of those of another, round by round, each among the other calls of its rank. Both
/// lists of a rank are walked side by side.
fn have_places(first_others: &[u32], first: &[u32], others: &[u32], own: &[u32]) -> bool
    ensures { result ≡ true → Ascend first.now → Ascend own.now → HavePlaces (place_in_round first_others.now first.now) others.now own.now }
{
    if own.len() > first.len() {
        return false;
    }
    let mut place = 0;
    for round in 0..own.len() {
        let first_place = place_from(place, first_others, first[round]);
        place = place_from(place, others, own[round]);
        if place != first_place {
            return false;
        }
    }
    true
}

/// How many of these ascending numbers are below one, where the first `place` of them are.
fn place_from(place: usize, others: &[u32], number: u32) -> usize
    requires { place ≤ length others.now }
    ensures within { result ≤ length others.now }
    ensures place { place ≤ place_among others.now number → result ≡ place_among others.now number }
{
    place + count_below(&others[place..], number)
}

/// How many of the first of these numbers are below one.
fn count_below(others: &[u32], number: u32) -> usize
    ensures { result ≡ length (take_while (λ other. nat_lt other number) others.now) }
{
    others.iter().take_while(|other| **other < number).count()
}
