//! What is before the returns of a run.
ghost use Rattle.std.specs.Prelude.{ℕ, ◌≡◌, ◌<◌, ◌+◌, ◌^◌, ◌↔◌, true, [], List, length, replicate, sum, IfOk, OnOk, OnErr};
ghost use Rattle.rma_link.specs.declared.links.Links.{Links};
ghost use Rattle.rma_link.specs.Order.{IsAtOrBefore, IsPossible};
ghost use Rattle.rma_clock.specs.Reached.{IsReached, IsNext, CanSettle, with_point, with_edges, edges_to};
ghost use Rattle.rma_clock.specs.inside.Live.{IsLive, IsBeforeOwn};
ghost use Rattle.rma_clock.specs.inside.Before.{IsBefore, IsRow, IsRaised};
ghost use Rattle.rma_clock.specs.inside.Table.{IsTable, IsCaught, IsWhole};

use crate::row::Row;
use crate::rows::Rows;
use crate::step::{Step, last_step};
use rma_base::{Memory, Point, Rank, Sequence};
use std::alloc::Global;

/// By rank, what is before its returns that receive something.
#[derive(Drop)]
pub(crate) struct Table {
    /// By rank, those returns by their positions.
    pub(crate) steps: Vec<Sequence<Step>>,
    /// What steps name by index.
    pub(crate) rows: Rows,
}

impl Table {
    /// No step yet, of so many ranks.
    pub(crate) fn new(alloc: Global, ranks: usize) -> Result<Table, Memory>
        ensures steps { IfOk result (λ table. table.steps.items ≡ replicate ranks []) }
        ensures rows { IfOk result (λ table. table.rows ≡ []) }
    {
        Ok(Table {
            steps: empty_lists(alloc, ranks)?,
            rows: Rows::new(alloc)?,
        })
    }

    /// Raises the row to all that is at or before the point.
    pub(crate) fn raise_to(&self, row: &mut Row, point: Point)
        requires table { (links : Links) × IsTable (length row.old) links self.now }
        requires rank { point.rank.0 < length row.old }
        requires pos { point.pos + 1 < 2 ^ 32 }
        ensures size { length row.new ≡ length row.old }
        ensures raised { (links : Links) → IsTable (length row.old) links self.now → IsPossible links → IsCaught links self.now.steps.items point → IsRaised (λ p. IsAtOrBefore links p point) row.old row.new }
    {
        let steps = &self.steps[point.rank.0 as usize];
        if let Some(step) = last_step(steps.as_slice(), point.pos) {
            self.rows.raise(row, step.row);
        }
        row.raise(point.rank.0, point.pos + 1);
    }

    /// The row of the last step of the rank, if it has one.
    pub(crate) fn last_row(&self, rank: Rank) -> Option<u32> {
        let steps = self.steps.get(rank.0 as usize)?;
        match steps.as_slice().last() {
            Some(step) => Some(step.row),
            None => None,
        }
    }

    /// A row of all that is before the next point of a rank in the rank's own order.
    fn own_row(&self, point: Point) -> Result<Row, Memory>
        requires { (points : List ℕ) × (links : Links) × IsLive points links self.now × IsNext points point }
        ensures size { IfOk result (λ row. length row ≡ length self.now.steps.items) }
        ensures row { IfOk result (λ row. (points : List ℕ) (links : Links) → IsLive points links self.now → IsNext points point → IsRow (IsBeforeOwn links point) row) }
    {
        let mut row = Row::new(*self.steps.allocator(), self.steps.len())?;
        if point.pos > 0 {
            let own = Point {
                rank: point.rank,
                pos: point.pos - 1,
            };
            self.raise_to(&mut row, own);
        }
        Ok(row)
    }

    /// A row of all that is before the next point of a rank, where an edge leads to it from each of these.
    fn next_row(&self, point: Point, sources: &[Point]) -> Result<Row, Memory>
        requires { (points : List ℕ) × (links : Links) × IsLive points links self.now × CanSettle points point sources.now }
        ensures size { IfOk result (λ row. length row ≡ length self.now.steps.items) }
        ensures row { IfOk result (λ row. (points : List ℕ) (links : Links) → IsLive points links self.now → CanSettle points point sources.now → IsRow (IsBefore (with_edges links (edges_to point sources.now)) point) row) }
    {
        let mut row = self.own_row(point)?;
        for source in sources {
            self.raise_to(&mut row, *source);
        }
        Ok(row)
    }

    /// Adds the next point of a rank, with an edge from each of these.
    pub(crate) fn receive(&mut self, point: Point, sources: &[Point]) -> Result<(), Memory>
        requires { (points : List ℕ) × (links : Links) × IsLive points links self.old × CanSettle points point sources.now }
        ensures ok { OnOk result ((points : List ℕ) (links : Links) → IsLive points links self.old → CanSettle points point sources.now → IsLive (with_point points point) (with_edges links (edges_to point sources.now)) self.new) }
        ensures err { OnErr result ((points : List ℕ) (links : Links) → IsLive points links self.old → IsLive points links self.new) }
    {
        if sources.is_empty() {
            return Ok(());
        }
        let numbers = self.next_row(point, sources)?;
        let like = self.last_row(point.rank);
        let row = self.rows.add(&numbers, like)?;
        let steps = &mut self.steps[point.rank.0 as usize];
        steps.push(Step {
            pos: point.pos,
            row,
        })
    }

    /// Whether the first point is at or before the second.
    pub(crate) fn leq(&self, p: Point, q: Point) -> bool
        requires { (points : List ℕ) × (links : Links) × IsWhole points links self.now × IsReached points p × IsReached points q }
        ensures { (points : List ℕ) (links : Links) → IsWhole points links self.now → IsReached points p → IsReached points q → (result ≡ true) ↔ IsAtOrBefore links p q }
    {
        if p.rank.0 == q.rank.0 {
            return p.pos <= q.pos;
        }
        let steps = &self.steps[q.rank.0 as usize];
        match last_step(steps.as_slice(), q.pos) {
            Some(step) => p.pos < self.rows.number(step.row, p.rank.0),
            None => false,
        }
    }
}

/// An empty list for each of so many ranks.
pub(crate) fn empty_lists<T: Drop>(alloc: Global, ranks: usize) -> Result<Vec<Sequence<T>>, Memory>
    ensures { IfOk result (λ lists. lists.items ≡ replicate ranks []) }
{
    let mut lists = Vec::new(alloc);
    for _rank in 0..ranks {
        lists.push(Sequence::new(alloc))?;
    }
    Ok(lists)
}
