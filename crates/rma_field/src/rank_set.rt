//! Fields that are sets of ranks.
ghost use Rattle.std.specs.Prelude.{◌≡◌, ◌≢◌, ◌++◌, ◌∷◌, [], ℕ, ℤ, List, length, map, filter, min, not, ◌||◌, true, false, Some, None, Ok, Err, decimal, string_bytes, if◌then◌else◌, ◌<◌, IfSome, IfOk, IfErr, MatchOption};
ghost use Rattle.rma_base.specs.RankSet.{ascending, has_repeat, number_of};
ghost use Rattle.rma_field.specs.Kinds.{ranks, target, meaning, target_text};
ghost use Rattle.rma_field.specs.Numbers.{number, signed};
ghost use Rattle.rma_field.specs.Ranks.{is_comma_free, is_rank, natural_of, numbers, pieces, pieces_left, ranks_text, repeats, set_of};
ghost use Rattle.rma_field.specs.Steps.{Fails, Gives};
ghost use Rattle.rma_field.specs.inside.Listed.{Lists};
ghost use Rattle.std.specs.List.{join_with_byte, take_while};

use crate::field::is_word;
use crate::number::{CAP, Signed, number, rank_field, refused};
use crate::parse_error::ParseError;
use crate::repeat::repeats;
use rma_base::{FormReason, Memory, Rank, RankSet, RankSetError, Version};
use std::alloc::Global;

// The numbers of a field: those that are ranks, and whether one is none.
#[derive(Drop)]
struct Listed {
    ranks: Vec<Rank>,
    far: bool,
}

/// The field as the target of an RMA call: a rank, or none for the word `null`.
#[inline]
pub fn target_field(version: Version, text: &[u8]) -> Result<Option<Rank>, ParseError>
    ensures { Gives result (meaning version target text.now) }
{
    if is_word(text, b"null") {
        return Ok(None);
    }
    match rank_field(version, text) {
        Ok(rank) => Ok(Some(rank)),
        Err(error) => Err(error),
    }
}

/// The field as a set of ranks.
pub fn ranks_field(alloc: Global, version: Version, text: &[u8]) -> Result<RankSet, ParseError>
    ensures { Gives result (meaning version ranks text.now) }
{
    if is_word(text, b"none") {
        return set_of(alloc, &[]);
    }
    let listed = read_numbers(alloc, version.ranks() - 1, text)?;
    if !listed.far {
        return set_of(alloc, listed.ranks.as_slice());
    }
    if repeats(alloc, text)? {
        Err(refused(FormReason::BadNumber))
    } else {
        Err(refused(FormReason::OutOfRange))
    }
}

fn set_of(alloc: Global, ranks: &[Rank]) -> Result<RankSet, ParseError>
    ensures { let numbers = map number_of ranks.now in Gives result (if has_repeat numbers then Err FormReason.BadNumber else Ok (ascending numbers)) }
{
    match RankSet::new(alloc, ranks) {
        Ok(set) => Ok(set),
        Err(RankSetError::Repeated) => Err(refused(FormReason::BadNumber)),
        Err(RankSetError::Memory) => Err(ParseError::Memory),
    }
}

// The numbers of the field, each of which has to be one.
fn read_numbers(alloc: Global, last: u32, text: &[u8]) -> Result<Listed, ParseError>
    ensures ok { IfOk result (λ listed. (zs : List ℤ) × (numbers (pieces text.now) ≡ Some zs) × Lists last listed zs) }
    ensures err { IfErr result (λ error. Fails error (set_of last (numbers (pieces text.now)))) }
{
    let mut listed = Listed {
        ranks: Vec::new(alloc),
        far: false,
    };
    let mut rest = Some(text);
    'pieces: while let Some(text) = rest {
        let (piece, more) = cut(text);
        listed.add(last, piece)?;
        rest = more;
    }
    Ok(listed)
}

impl Listed {
    // Adds the number that the piece has to be.
    fn add(&mut self, last: u32, piece: &[u8]) -> Result<(), ParseError>
        ensures ok { IfOk result (λ _. (z : ℤ) × (number piece.now ≡ Some z) × ((zs : List ℤ) → Lists last self.old zs → Lists last self.new (zs ++ z ∷ []))) }
        ensures err { IfErr result (λ error. error ≢ ParseError.Memory → (number piece.now ≡ None) × (error ≡ ParseError.Fault (record { reason = FormReason.BadNumber }))) }
    {
        match number(piece) {
            Some(number) => self.add_number(last, number),
            None => Err(refused(FormReason::BadNumber)),
        }
    }

    fn add_number(&mut self, last: u32, number: Signed) -> Result<(), ParseError>
        ensures ok { IfOk result (λ _. (m : ℕ) (zs : List ℤ) → number.magnitude ≡ min m CAP → Lists last self.old zs → Lists last self.new (zs ++ signed number.negative m ∷ [])) }
        ensures err { IfErr result (λ error. error ≡ ParseError.Memory) }
    {
        match rank_of(last, number) {
            Some(rank) => match self.ranks.push(rank) {
                Ok(()) => Ok(()),
                Err(_) => Err(ParseError::Memory),
            },
            None => {
                self.far = true;
                Ok(())
            }
        }
    }
}

// The number as a rank, if it is one.
fn rank_of(last: u32, number: Signed) -> Option<Rank>
    ensures { (m : ℕ) → number.magnitude ≡ min m CAP → MatchOption result (is_rank last (signed number.negative m) ≡ false)
        (λ rank. (is_rank last (signed number.negative m) ≡ true) × (natural_of (signed number.negative m) ≡ rank.0)) }
{
    if number.negative && number.magnitude > 0 {
        return None;
    }
    if number.magnitude > u64::from(last) {
        return None;
    }
    Some(Rank(number.magnitude as u32))
}

// The piece before the first comma, and what stands behind that comma.
pub(crate) fn cut(text: &[u8]) -> (&[u8], Option<&[u8]>)
    ensures pieces { pieces text.now ≡ result.0.now ∷ pieces_left result.1 }
    ensures shorter { IfSome result.1 (λ more. length more.now < length text.now) }
{
    let place = comma_place(text);
    if place < text.len() {
        (&text[..place], Some(&text[place + 1..]))
    } else {
        (text, None)
    }
}

// Where the first comma stands, or the length.
fn comma_place(text: &[u8]) -> usize
    ensures { result ≡ length (take_while is_comma_free text.now) }
{
    text.iter().take_while(|byte| **byte != b',').count()
}

/// The word of a set of ranks.
pub fn ranks_text(alloc: Global, ranks: &RankSet) -> Result<String, Memory>
    ensures { IfOk result (λ text. string_bytes text ≡ ranks_text ranks.now) }
{
    match ranks.numbers().split_first() {
        Some((first, more)) => joined_ranks(alloc, *first, more),
        None => Ok(format!(in alloc; "none")?),
    }
}

/// The word of a target.
pub fn target_text(alloc: Global, target: Option<Rank>) -> Result<String, Memory>
    ensures { IfOk result (λ text. string_bytes text ≡ target_text target) }
{
    match target {
        Some(rank) => Ok(format!(in alloc; "{}", rank.0)?),
        None => Ok(format!(in alloc; "null")?),
    }
}

// The numbers joined by commas.
fn joined_ranks(alloc: Global, first: u32, more: &[u32]) -> Result<String, Memory>
    ensures { IfOk result (λ text. string_bytes text ≡ join_with_byte 44 (map decimal (first ∷ more.now))) }
{
    let mut text = first.to_string(alloc)?;
    for rank in more {
        write!(text, ",{rank}")?;
    }
    Ok(text)
}
