//! Clocks on their way.
ghost use Rattle.std.specs.Prelude.{ℕ, ◌≡◌, ◌<◌, ◌≤◌, ◌+◌, ◌^◌, ◌⊎◌, [], length, replicate, All, IfOk, OnOk};
ghost use Rattle.rma_link.specs.Order.{IsAtOrBefore, IsPossible};
ghost use Rattle.rma_walk.specs.declared.source.Source.TheVariants.{Meet};
ghost use Rattle.rma_clock.specs.declared.step.Step.{Step};
ghost use Rattle.rma_clock.specs.inside.Before.{IsBefore, IsBeforeSource, IsBeforeSome, IsRow, IsRaised};
ghost use Rattle.rma_clock.specs.inside.Table.{IsBuilder, IsCaught, IsUsable, IsReceived, IsSettled, entry_before, row_at, steps_of};

use crate::row::Row;
use crate::step::Step;
use crate::table::Table;
use rma_base::{Memory, Point};
use rma_link::Links;
use rma_walk::Source;
use std::alloc::Global;

/// Clocks on their way.
#[derive(Drop)]
pub(crate) struct Builder<'a> {
    /// The links of the run.
    pub(crate) links: &'a Links,
    /// What is before the returns so far.
    pub(crate) table: Table,
    /// By meet, the index of its row, once one of its members is reached.
    pub(crate) meets: Vec<Option<u32>>,
}

impl<'a> Builder<'a> {
    /// No step yet, of so many ranks.
    pub(crate) fn new(alloc: Global, ranks: usize, links: &'a Links) -> Result<Builder<'a>, Memory>
        ensures builder { IfOk result (IsBuilder ranks links.now) }
        ensures steps { IfOk result (λ builder. builder.table.steps.items ≡ replicate ranks []) }
    {
        let table = Table::new(alloc, ranks)?;
        let meets = vec![in alloc; None; links.meets.len()]?;
        Ok(Builder {
            links,
            table,
            meets,
        })
    }

    /// Raises the row to all that is at or before the point.
    fn raise_to(&self, row: &mut Row, point: Point)
        requires builder { IsBuilder (length row.old) self.now.links.now self.now }
        requires caught { IsCaught self.now.links.now self.now.table.steps.items point }
        requires rank { point.rank.0 < length row.old }
        requires pos { point.pos + 1 < 2 ^ 32 }
        requires possible { IsPossible self.now.links.now }
        ensures { IsRaised (λ p. IsAtOrBefore self.now.links.now p point) row.old row.new }
    {
        self.table.raise_to(row, point);
    }

    /// A row of all that is at or before the entry of a member of the meet.
    fn meet_row(&self, alloc: Global, index: usize) -> Result<Row, Memory>
        requires builder { IsBuilder (length self.now.table.steps.items) self.now.links.now self.now }
        requires usable { IsUsable (length self.now.table.steps.items) self.now.links.now self.now.table.steps.items (Meet index) }
        requires possible { IsPossible self.now.links.now }
        ensures size { IfOk result (λ row. length row ≡ length self.now.table.steps.items) }
        ensures row { IfOk result (IsRow (IsBeforeSource self.now.links.now (Meet index))) }
    {
        let mut row = Row::new(alloc, self.table.steps.len())?;
        for member in self.links.meets.get(index).calls.as_slice() {
            self.raise_to(&mut row, member.entry());
        }
        Ok(row)
    }

    /// The index of the row of the meet. A new one shares blocks with the given one.
    fn share(&mut self, alloc: Global, index: usize, like: Option<u32>) -> Result<u32, Memory>
        requires builder { IsBuilder (length self.old.table.steps.items) self.old.links.now self.old }
        requires usable { IsUsable (length self.old.table.steps.items) self.old.links.now self.old.table.steps.items (Meet index) }
        requires possible { IsPossible self.old.links.now }
        ensures links { self.new.links.now ≡ self.old.links.now }
        ensures steps { self.new.table.steps ≡ self.old.table.steps }
        ensures builder { OnOk result (IsBuilder (length self.old.table.steps.items) self.old.links.now self.new) }
        ensures row { IfOk result (λ row. (row < length self.new.table.rows) × IsRow (IsBeforeSource self.old.links.now (Meet index)) (row_at self.new.table.rows row)) }
    {
        if let Some(row) = self.meets[index] {
            return Ok(row);
        }
        let numbers = self.meet_row(alloc, index)?;
        let row = self.table.rows.add(&numbers, like)?;
        self.meets[index] = Some(row);
        Ok(row)
    }

    /// Raises the row to all that is at or before an entry of the source.
    fn raise_by(
        &mut self,
        alloc: Global,
        row: &mut Row,
        source: Source,
        like: Option<u32>,
    ) -> Result<(), Memory>
        requires builder { IsBuilder (length self.old.table.steps.items) self.old.links.now self.old }
        requires usable { IsUsable (length self.old.table.steps.items) self.old.links.now self.old.table.steps.items source }
        requires possible { IsPossible self.old.links.now }
        requires size { length row.old ≡ length self.old.table.steps.items }
        ensures links { self.new.links.now ≡ self.old.links.now }
        ensures steps { self.new.table.steps ≡ self.old.table.steps }
        ensures builder { OnOk result (IsBuilder (length self.old.table.steps.items) self.old.links.now self.new) }
        ensures raised { OnOk result (IsRaised (IsBeforeSource self.old.links.now source) row.old row.new) }
    {
        match source {
            Source::Entry(point) => self.raise_to(row, point),
            Source::Meet(index) => {
                let shared = self.share(alloc, index, like)?;
                self.table.rows.raise(row, shared);
            }
        }
        Ok(())
    }

    /// The index of a row of all that is at or before the entry of a call, or an entry of one of its sources.
    fn own_row(&mut self, alloc: Global, own: Point, sources: &[Source]) -> Result<u32, Memory>
        requires builder { IsBuilder (length self.old.table.steps.items) self.old.links.now self.old }
        requires caught { IsCaught self.old.links.now self.old.table.steps.items own }
        requires rank { own.rank.0 < length self.old.table.steps.items }
        requires pos { own.pos + 1 < 2 ^ 32 }
        requires usable { All (IsUsable (length self.old.table.steps.items) self.old.links.now self.old.table.steps.items) sources.now }
        requires possible { IsPossible self.old.links.now }
        ensures links { self.new.links.now ≡ self.old.links.now }
        ensures steps { self.new.table.steps ≡ self.old.table.steps }
        ensures builder { OnOk result (IsBuilder (length self.old.table.steps.items) self.old.links.now self.new) }
        ensures row { IfOk result (λ row. (row < length self.new.table.rows) × IsRow (λ p. IsAtOrBefore self.old.links.now p own ⊎ IsBeforeSome self.old.links.now sources.now p) (row_at self.new.table.rows row)) }
    {
        let like = self.table.last_row(own.rank);
        let mut numbers = Row::new(alloc, self.table.steps.len())?;
        self.raise_to(&mut numbers, own);
        for source in sources {
            self.raise_by(alloc, &mut numbers, *source, like)?;
        }
        let row = self.table.rows.add(&numbers, like)?;
        Ok(row)
    }

    /// The index of a row of all that is before the return.
    fn received_row(
        &mut self,
        alloc: Global,
        point: Point,
        sources: &[Source],
    ) -> Result<u32, Memory>
        requires builder { IsBuilder (length self.old.table.steps.items) self.old.links.now self.old }
        requires pos { 0 < point.pos }
        requires caught { IsCaught self.old.links.now self.old.table.steps.items (entry_before point) }
        requires rank { point.rank.0 < length self.old.table.steps.items }
        requires usable { All (IsUsable (length self.old.table.steps.items) self.old.links.now self.old.table.steps.items) sources.now }
        requires received { IsReceived self.old.links.now point sources.now }
        requires possible { IsPossible self.old.links.now }
        ensures links { self.new.links.now ≡ self.old.links.now }
        ensures steps { self.new.table.steps ≡ self.old.table.steps }
        ensures builder { OnOk result (IsBuilder (length self.old.table.steps.items) self.old.links.now self.new) }
        ensures row { IfOk result (λ row. (row < length self.new.table.rows) × IsRow (IsBefore self.old.links.now point) (row_at self.new.table.rows row)) }
    {
        if sources.len() == 1 {
            if let Source::Meet(index) = sources[0] {
                let like = self.table.last_row(point.rank);
                return self.share(alloc, index, like);
            }
        }
        let own = Point {
            rank: point.rank,
            pos: point.pos - 1,
        };
        self.own_row(alloc, own, sources)
    }

    /// Settles a return, after all points that come before it.
    pub(crate) fn settle(
        &mut self,
        alloc: Global,
        point: Point,
        sources: &[Source],
    ) -> Result<(), Memory>
        requires builder { IsBuilder (length self.old.table.steps.items) self.old.links.now self.old }
        requires pos { 0 < point.pos }
        requires caught { IsCaught self.old.links.now self.old.table.steps.items (entry_before point) }
        requires rank { point.rank.0 < length self.old.table.steps.items }
        requires last { All (λ (step : Step). step.pos ≤ point.pos) (steps_of self.old.table.steps.items point.rank.0) }
        requires usable { All (IsUsable (length self.old.table.steps.items) self.old.links.now self.old.table.steps.items) sources.now }
        requires received { IsReceived self.old.links.now point sources.now }
        requires possible { IsPossible self.old.links.now }
        ensures links { self.new.links.now ≡ self.old.links.now }
        ensures builder { OnOk result (IsBuilder (length self.old.table.steps.items) self.old.links.now self.new) }
        ensures steps { OnOk result (IsSettled point sources.now self.old.table.steps.items self.new.table.steps.items) }
    {
        if sources.is_empty() {
            return Ok(());
        }
        let row = self.received_row(alloc, point, sources)?;
        let steps = &mut self.table.steps[point.rank.0 as usize];
        steps.push(Step {
            pos: point.pos,
            row,
        })?;
        Ok(())
    }
}
