//! Rows of numbers that share blocks.
ghost use Rattle.std.specs.Prelude.{ℕ, ◌≡◌, ◌+◌, ◌<◌, ◌≤◌, ◌/◌, ◌%◌, ◌++◌, ◌∷◌, [], length, max, slice_index, IfOk, OnOk, OnErr};
ghost use Rattle.rma_clock.specs.inside.Blocks.{IsGrown};
ghost use Rattle.rma_clock.specs.inside.Rows.{IsFound, IsStored, number_at, start_at};
ghost use Rattle.rma_clock.specs.inside.Table.{row_at};

use crate::blocks::{add_list, part, push_block};
use crate::row::Row;
use rma_base::Memory;
use std::alloc::Global;
use std::marker::Model;

/// How many numbers of a row are shared together.
const NUMBERS: usize = 16;

/// How many starts of such blocks are shared together.
const STARTS: usize = 8;

/// Where a row stands.
#[derive(Clone, Copy)]
pub(crate) struct Place {
    /// Where its upper index starts.
    start: u32,
    /// How many numbers it has.
    width: u32,
}

/// Rows of numbers, of which each shares blocks with an earlier one that it is like.
///
/// A row is cut into blocks of 16 numbers, and the starts of these, its lower index, into blocks of 8. The starts of the latter are its upper
/// index. Both tables of blocks start with one of zeros. So a row of 1,024 numbers takes at most 232 bytes where two of its blocks differ from
/// the earlier row and are not all zeros.
#[derive(Drop)]
pub(crate) struct Rows {
    /// Blocks of numbers.
    numbers: Vec<u32>,
    /// Blocks of where those start.
    lower: Vec<u32>,
    /// Where these start, row by row.
    upper: Vec<u32>,
    /// Where the rows stand.
    places: Vec<Place>,
}

impl Model for Rows {
    ghost use Rattle.std.specs.Prelude.{List, ℕ, map, All};
    ghost use Rattle.rma_clock.specs.inside.Rows.{IsPlaced, row_of};

    ghost Value = { List (List ℕ) };

    ghost view = { λ rows. map (row_of rows.numbers.items rows.lower.items rows.upper.items) rows.places.items };

    ghost invariant = { λ rows. All (IsPlaced rows.numbers.items rows.lower.items rows.upper.items) rows.places.items };
}

impl Rows {
    /// No row.
    pub(crate) fn new(alloc: Global) -> Result<Rows, Memory>
        ensures { IfOk result (λ rows. rows ≡ []) }
    {
        Ok(Rows {
            numbers: vec![in alloc; 0; NUMBERS]?,
            lower: vec![in alloc; 0; STARTS]?,
            upper: Vec::new(alloc),
            places: Vec::new(alloc),
        })
    }

    /// The number of the rank in a row.
    pub(crate) fn number(&self, row: u32, rank: u32) -> u32
        requires row { row < length self.now }
        requires rank { rank < length (row_at self.now row) }
        ensures { result ≡ slice_index (row_at self.now row) rank }
    {
        let place = self.places[row as usize];
        stored_number(
            &self.numbers,
            &self.lower,
            &self.upper,
            place.start,
            rank as usize,
        )
    }

    /// Raises each number to the one of a row here.
    pub(crate) fn raise(&self, row: &mut Row, index: u32)
        requires index { index < length self.now }
        requires size { length (row_at self.now index) ≡ length row.old }
        ensures size { length row.new ≡ length row.old }
        ensures each { (rank : ℕ) → slice_index row.new rank ≡ max (slice_index row.old rank) (slice_index (row_at self.now index) rank) }
    {
        let place = self.places[index as usize];
        raise_stored(&self.numbers, &self.lower, &self.upper, place.start, row);
    }

    /// Adds a row, which shares blocks with another one, and answers its index.
    ///
    /// `Memory` where there is none left, or no index.
    pub(crate) fn add(&mut self, row: &Row, like: Option<u32>) -> Result<u32, Memory>
        ensures ok { OnOk result (self.new ≡ self.old ++ row.now ∷ []) }
        ensures index { IfOk result (λ index. index ≡ length self.old) }
        ensures err { OnErr result (self.new ≡ self.old) }
    {
        let like = like_place(&self.places, like);
        let numbers = row.as_slice();
        let index = self.places.len();
        if index > u32::MAX as usize || numbers.len() > u32::MAX as usize {
            return Err(Memory);
        }
        let start = store(
            &mut self.numbers,
            &mut self.lower,
            &mut self.upper,
            numbers,
            like,
        )?;
        self.places.push(Place {
            start,
            width: numbers.len() as u32,
        })?;
        Ok(index as u32)
    }
}

/// The place of the row at the index, if there is one, and else one of no numbers.
fn like_place(places: &[Place], like: Option<u32>) -> Place {
    if let Some(index) = like {
        if let Some(place) = places.get(index as usize) {
            return *place;
        }
    }
    Place { start: 0, width: 0 }
}

/// Where a block of a row starts.
fn stored_start(lower: &[u32], upper: &[u32], start: u32, block: usize) -> usize
    requires top { start + block / 8 < length upper.now }
    requires middle { slice_index upper.now (start + block / 8) + block % 8 < length lower.now }
    ensures { result ≡ start_at lower.now upper.now start block }
{
    let top = upper[start as usize + block / STARTS] as usize;
    lower[top + block % STARTS] as usize
}

/// The number at an index of a row.
fn stored_number(numbers: &[u32], lower: &[u32], upper: &[u32], start: u32, i: usize) -> u32
    requires { IsFound numbers.now lower.now upper.now start i }
    ensures { result ≡ number_at numbers.now lower.now upper.now start i }
{
    let first = stored_start(lower, upper, start, i / NUMBERS);
    numbers[first + i % NUMBERS]
}

/// So many numbers from a place on.
fn block(numbers: &[u32], first: usize, count: usize) -> &[u32]
    requires { first + count ≤ length numbers.now }
    ensures size { length result.now ≡ count }
    ensures each { (k : ℕ) → k < count → slice_index result.now k ≡ slice_index numbers.now (first + k) }
{
    &numbers[first..first + count]
}

/// Raises each number to the one of a row that is stored.
fn raise_stored(numbers: &[u32], lower: &[u32], upper: &[u32], start: u32, row: &mut Row)
    requires { (i : ℕ) → i < length row.old → IsFound numbers.now lower.now upper.now start i }
    ensures size { length row.new ≡ length row.old }
    ensures each { (i : ℕ) → i < length row.old → slice_index row.new i ≡ max (slice_index row.old i) (number_at numbers.now lower.now upper.now start i) }
{
    let width = row.len();
    let mut at = 0;
    while at < width {
        let first = stored_start(lower, upper, start, at / NUMBERS);
        let count = NUMBERS.min(width - at);
        row.raise_part(at, block(numbers, first, count));
        at += count;
    }
}

/// Stores a row, which shares blocks with the one that is given, and answers where its upper index starts.
fn store(
    numbers: &mut Vec<u32>,
    lower: &mut Vec<u32>,
    upper: &mut Vec<u32>,
    row: &[u32],
    like: Place,
) -> Result<u32, Memory>
    ensures numbers { IsGrown numbers.old.items numbers.new.items }
    ensures lower { IsGrown lower.old.items lower.new.items }
    ensures upper { IsGrown upper.old.items upper.new.items }
    ensures stored { IfOk result (λ start. IsStored numbers.new.items lower.new.items upper.new.items start row.now) }
{
    let blocks = like.width as usize / (NUMBERS * STARTS) + 1;
    let like_upper = part(upper, like.start as usize, blocks);
    let like_lower = lower_index(lower, like_upper)?;
    let starts = add_list(numbers, NUMBERS, row, &like_lower)?;
    let tops = add_list(lower, STARTS, &starts, like_upper)?;
    push_block(upper, &tops)
}

/// The lower index of a row with this upper one.
fn lower_index(lower: &Vec<u32>, upper: &[u32]) -> Result<Vec<u32>, Memory> {
    let mut starts = Vec::with_capacity(*lower.allocator(), upper.len() * STARTS)?;
    for start in upper {
        starts.extend_from_slice(part(lower, *start as usize, STARTS))?;
    }
    Ok(starts)
}
