//! Which calls of a rank come before an access, and which behind it, by a search from where the last one ended.
ghost use Rattle.std.specs.Prelude.{◌≡◌, ◌<◌, ◌≤◌, ◌^◌, ◌↔◌, ◌+◌, ℕ, List, All, IsTrue, IfSome};
ghost use Rattle.rma_clock.specs.Reached.{IsReached};
ghost use Rattle.rma_link.specs.declared.links.Links.{Links};
ghost use Rattle.rma_link.specs.Order.{IsAtOrBefore};
ghost use Rattle.rma_link.specs.Point.{entry, return_of};
ghost use Rattle.rma_dyn.specs.inside.Reached.{IsAskable, IsDoneAt};

use rma_base::{Point, Rank};
use rma_clock::Clocks;
use rma_rules::Access;

/// Where the searches for an access to the memory of a rank ended. Those for the next one mostly end there too, so they begin there.
#[derive(Clone, Copy)]
pub(crate) struct Ends {
    /// How many calls of the rank are left before the access.
    pub(crate) left: u32,
    /// How many are entered while it may not be done.
    pub(crate) entered: u32,
}

/// How many of the first calls of a rank, of so many, are left at or before the entry of an access's call: perhaps so many as the hint
/// says.
pub(crate) fn left_before<C: Clocks>(
    access: &Access<'_>,
    memory: Rank,
    count: u32,
    hint: u32,
    clocks: &C,
) -> u32
    requires clocks { (points : List ℕ) × (links : Links) × C.are_of clocks.now points links × IsAskable points access.now memory count }
    ensures within { result ≤ count }
    ensures parted { (points : List ℕ) (links : Links) → C.are_of clocks.now points links → IsAskable points access.now memory count
        → (call : ℕ) → call < count → (call < result) ↔ IsAtOrBefore links (return_of memory call) (entry access.now.name.rank access.now.call) }
{
    let mut low = 0;
    let mut high = count;
    'search: while low < high {
        let middle = next_asked(low, high, hint);
        if is_left_before(access, memory, middle, clocks) {
            low = middle + 1;
        } else {
            high = middle;
        }
    }
    low
}

/// Whether a call of a rank is left at or before the entry of an access's call.
fn is_left_before<C: Clocks>(access: &Access<'_>, memory: Rank, call: u32, clocks: &C) -> bool
    requires small { call < 2 ^ 31 }
    requires clocks { (points : List ℕ) × (links : Links) × (count : ℕ) × C.are_of clocks.now points links × IsAskable points access.now memory count × call < count }
    ensures { (points : List ℕ) (links : Links) (count : ℕ) → C.are_of clocks.now points links → IsAskable points access.now memory count → call < count
        → IsTrue result ↔ IsAtOrBefore links (return_of memory call) (entry access.now.name.rank access.now.call) }
{
    let left = Point {
        rank: memory,
        pos: 2 * call + 1,
    };
    let entered = Point {
        rank: access.name.rank,
        pos: 2 * access.call,
    };
    clocks.leq(left, entered)
}

/// How many of the first calls of a rank, of so many, are entered while an access may not be done: perhaps so many as the hint says.
pub(crate) fn entered_before_done<C: Clocks>(
    access: &Access<'_>,
    memory: Rank,
    count: u32,
    hint: u32,
    clocks: &C,
) -> u32
    requires clocks { (points : List ℕ) × (links : Links) × C.are_of clocks.now points links × IsAskable points access.now memory count }
    ensures within { result ≤ count }
    ensures parted { (points : List ℕ) (links : Links) → C.are_of clocks.now points links → IsAskable points access.now memory count
        → (call : ℕ) → call < count → (result ≤ call) ↔ IsDoneAt links access.now (entry memory call) }
{
    let mut low = 0;
    let mut high = count;
    'search: while low < high {
        let middle = next_asked(low, high, hint);
        if is_done_at(access, memory, middle, clocks) {
            high = middle;
        } else {
            low = middle + 1;
        }
    }
    low
}

/// Whether an access is done at or before the entry of a call of a rank.
fn is_done_at<C: Clocks>(access: &Access<'_>, memory: Rank, call: u32, clocks: &C) -> bool
    requires small { call < 2 ^ 31 }
    requires clocks { (points : List ℕ) × (links : Links) × (count : ℕ) × C.are_of clocks.now points links × IsAskable points access.now memory count × call < count }
    ensures { (points : List ℕ) (links : Links) (count : ℕ) → C.are_of clocks.now points links → IsAskable points access.now memory count → call < count
        → IsTrue result ↔ IsDoneAt links access.now (entry memory call) }
{
    let entered = Point {
        rank: memory,
        pos: 2 * call,
    };
    match access.done {
        Some(done) => clocks.leq(done, entered),
        None => false,
    }
}

/// The next number that a search asks for between two: from a hint on by steps that double, and no further than to the middle.
fn next_asked(low: u32, high: u32, hint: u32) -> u32
    requires { low < high }
    ensures low { low ≤ result }
    ensures high { result < high }
{
    let half = (high - low) / 2;
    if hint <= low {
        low + half.min(low - hint)
    } else if high <= hint {
        high - 1 - half.min(hint - high)
    } else {
        hint - 1
    }
}
