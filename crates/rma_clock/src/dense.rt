//! Plain clocks, for tests.
ghost use Rattle.std.specs.Prelude.{ℕ, ◌≡◌, ◌<◌, ◌+◌, ◌^◌, List, length, All, IfOk};
ghost use Rattle.rma_base.specs.declared.point.Point.{Point};
ghost use Rattle.rma_link.specs.declared.links.Links.{Links};
ghost use Rattle.rma_link.specs.declared.meet.Member.{Member};
ghost use Rattle.rma_link.specs.Point.{IsPoint, entry};
ghost use Rattle.rma_link.specs.Order.{IsAtOrBefore};
ghost use Rattle.rma_link.specs.Within.{AreWithin};
ghost use Rattle.rma_walk.specs.Outcome.{IsOrder};
ghost use Rattle.rma_walk.specs.Source.{AreSources};
ghost use Rattle.rma_clock.specs.Reached.{points_of};
ghost use Rattle.rma_clock.specs.inside.Before.{IsBefore, IsBeforeSource, IsBeforeMember, IsRaised};
ghost use Rattle.rma_clock.specs.inside.Dense.{IsDense, HasRow, IsHeld, IsHeldSource, IsRowOf, AreReceived, AreBefore, AreDense, row_of};

use crate::clocks::Clocks;
use crate::row::Row;
use crate::table::empty_lists;
use rma_base::{Memory, Point, Sequence};
use rma_link::{Links, Member};
use rma_walk::{Inbox, Source, inboxes_of};
use std::alloc::Global;

/// The clocks of a possible run, with a row for each point: plain, to test others by.
#[derive(Drop)]
pub struct DenseClocks {
    /// By rank and position, how many points of each rank are at or before the point.
    rows: Vec<Sequence<Row>>,
}

impl DenseClocks {
    /// The clocks of a run whose ranks make so many calls, from an order of its points.
    ///
    /// # Errors
    ///
    /// `Memory` where there is none left.
    #[tactic(auto, using(crate::proofs::DenseLemmas::next_fits))]
    pub fn build(
        alloc: Global,
        lens: &[u32],
        links: &Links,
        order: &[Point],
    ) -> Result<DenseClocks, Memory>
        requires calls { All (λ calls. calls < 2 ^ 31) lens.now }
        requires links { AreWithin lens.now links.now }
        requires order { IsOrder lens.now links.now order.now }
        ensures { IfOk result (AreDense (points_of lens.now) links.now) }
    {
        let inboxes = inboxes_of(alloc, lens, links)?;
        let mut clocks = DenseClocks {
            rows: empty_lists(alloc, lens.len())?,
        };
        for point in order {
            let sources = sources_before(alloc, inboxes.as_slice(), *point)?;
            let row = clocks.row_after(alloc, links, *point, sources.as_slice())?;
            clocks.rows[point.rank.0 as usize].push(row)?;
        }
        Ok(clocks)
    }

    /// The row of the point.
    fn row(&self, point: Point) -> &Row
        requires { HasRow self.now.rows.items point }
        ensures { result.now ≡ row_of self.now.rows.items point }
    {
        self.rows[point.rank.0 as usize].get(point.pos as usize)
    }

    /// Raises the row to all that is at or before the point.
    fn raise_to(&self, row: &mut Row, point: Point)
        requires rows { (links : Links) × IsDense (length row.old) links self.now.rows.items }
        requires held { HasRow self.now.rows.items point }
        ensures size { length row.new ≡ length row.old }
        ensures raised { (links : Links) → IsDense (length row.old) links self.now.rows.items → IsRaised (λ p. IsAtOrBefore links p point) row.old row.new }
    {
        row.join(self.row(point));
    }

    /// Raises the row to all that is at or before the entry of one of these calls.
    fn raise_to_all(&self, row: &mut Row, calls: &[Member])
        requires rows { (links : Links) × IsDense (length row.old) links self.now.rows.items }
        requires held { All (λ (m : Member). IsHeld self.now.rows.items (entry m.rank m.call)) calls.now }
        ensures { (links : Links) → IsDense (length row.old) links self.now.rows.items → IsRaised (IsBeforeMember links calls.now) row.old row.new }
    {
        for member in calls {
            self.raise_to(row, member.entry());
        }
    }

    /// Raises the row to all that is at or before an entry of the source.
    fn raise_by(&self, links: &Links, row: &mut Row, source: Source)
        requires rows { IsDense (length row.old) links.now self.now.rows.items }
        requires held { IsHeldSource links.now self.now.rows.items source }
        ensures { IsRaised (IsBeforeSource links.now source) row.old row.new }
    {
        match source {
            Source::Entry(point) => self.raise_to(row, point),
            Source::Meet(index) => {
                self.raise_to_all(row, links.meets.get(index).calls.as_slice());
            }
        }
    }

    /// The row of a point that comes after the entries of these sources: all that is at or before it.
    fn row_after(
        &self,
        alloc: Global,
        links: &Links,
        point: Point,
        sources: &[Source],
    ) -> Result<Row, Memory>
        requires rows { IsDense (length self.now.rows.items) links.now self.now.rows.items }
        requires sources { AreBefore (length self.now.rows.items) links.now point sources.now }
        requires held { (e : Point) → IsBefore links.now point e → IsHeld self.now.rows.items e }
        requires rank { point.rank.0 < length self.now.rows.items }
        requires pos { point.pos + 1 < 2 ^ 32 }
        ensures { IfOk result (IsRowOf (length self.now.rows.items) links.now point) }
    {
        let mut row = Row::new(alloc, self.rows.len())?;
        for source in sources {
            self.raise_by(links, &mut row, *source);
        }
        row.raise(point.rank.0, point.pos + 1);
        Ok(row)
    }
}

impl Clocks for DenseClocks {
    ghost are_of = { λ clocks points links. AreDense points links clocks };

    fn leq(&self, p: Point, q: Point) -> bool {
        p.pos < self.row(q).number(p.rank.0)
    }
}

/// What the point receives.
fn received(alloc: Global, inboxes: &[Inbox], point: Point) -> Result<Sequence<Source>, Memory>
    requires { (lens : List ℕ) × (links : Links) × AreSources lens links inboxes.now × IsPoint lens point }
    ensures { IfOk result (AreReceived inboxes.now point) }
{
    if point.pos % 2 == 0 {
        return Ok(Sequence::new(alloc));
    }
    inboxes[point.rank.0 as usize].sources(alloc, point.pos / 2)
}

/// What comes before the point: what it receives, and the point before it on its rank.
fn sources_before(
    alloc: Global,
    inboxes: &[Inbox],
    point: Point,
) -> Result<Sequence<Source>, Memory>
    requires { (lens : List ℕ) × (links : Links) × AreSources lens links inboxes.now × IsPoint lens point }
    ensures { IfOk result (λ sources. (lens : List ℕ) (links : Links) → AreWithin lens links → AreSources lens links inboxes.now → IsPoint lens point → AreBefore (length lens) links point sources) }
{
    let mut sources = received(alloc, inboxes, point)?;
    if point.pos > 0 {
        let own = Point {
            rank: point.rank,
            pos: point.pos - 1,
        };
        sources.push(Source::Entry(own))?;
    }
    Ok(sources)
}
