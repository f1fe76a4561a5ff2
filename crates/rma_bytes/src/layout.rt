//! What a buffer of a datatype covers.
ghost use Rattle.std.specs.Prelude.{◌≡◌, ◌*◌, ◌<◌, length, map, ℤ, ◌+ℤ◌, [], ◌∷◌, IfOk, IfSome, IsTrue, ◌↔◌, slice_get, Some, false};
ghost use Rattle.rma_datatype.specs.Basic.{basic_size};
ghost use Rattle.rma_bytes.specs.Runs.{HasByte, IsCanonical, IsWithinBounds, moved};
ghost use Rattle.rma_bytes.specs.inside.Layout.{layout_in, run_of};

use crate::region::Region;
use crate::run::{Run, moved};
use crate::runs::Runs;
use rma_base::Memory;
use rma_datatype::Basic;
use std::alloc::Global;
use std::marker::Model;

/// The bytes that a call touches in a buffer (MPI 4.0, "Datatypes"), with the basic datatype that each touched entry has, where
/// there is one, and whether two of them share a byte. Entries of one basic datatype side by side lie in the value itself.
#[derive(Debug, Drop)]
pub struct Layout {
    stored: Stored,
}

/// How a layout is stored.
#[derive(Debug, Drop)]
enum Stored {
    /// Nothing is touched.
    Empty,
    /// Entries side by side.
    Elements {
        /// The basic datatype of each.
        element: Basic,
        /// How many there are.
        count: u32,
        /// The address of the first.
        start: i64,
    },
    /// Any others.
    Others(Box<Other>),
}

/// A layout that is not of entries of one basic datatype side by side.
#[derive(Debug, Drop)]
struct Other {
    /// The bytes.
    runs: Region,
    /// The basic datatype of all entries.
    element: Option<Basic>,
    /// Whether two entries share a byte.
    overlaps: bool,
}

impl Model for Layout {
    ghost use Rattle.rma_bytes.specs.Layout.{Layout};
    ghost use Rattle.rma_bytes.specs.inside.Layout.{layout_in};
    ghost use Rattle.rma_bytes.specs.Runs.{IsCanonical};

    ghost Value = { Layout };

    ghost view = { λ layout. layout_in layout.stored };

    ghost invariant = { λ layout. IsCanonical (layout_in layout.stored).runs };
}

impl Layout {
    /// The layout of these bytes. Entries of one basic datatype side by side take no memory.
    pub fn new(
        alloc: Global,
        runs: Runs,
        element: Option<Basic>,
        overlaps: bool,
    ) -> Result<Layout, Memory>
        ensures { IfOk result (λ layout. layout ≡ record { runs = runs; element = element; overlaps = overlaps }) }
    {
        if let Some(stored) = stored_within(&runs, element, overlaps) {
            return Ok(Layout { stored });
        }
        let runs = Region::from_runs(alloc, runs)?;
        boxed(alloc, runs, element, overlaps)
    }

    /// The layout of entries of a basic datatype side by side, which takes no memory.
    pub fn side_by_side(element: Basic, count: u32, start: i64) -> Layout
        requires { IsCanonical (record { start = start; len = count * basic_size element } ∷ []) }
        ensures { result ≡ record { runs = record { start = start; len = count * basic_size element } ∷ []; element = Some element; overlaps = false } }
    {
        side_by_side(element, count, start)
    }

    /// The layout with each byte moved by a distance, which must leave the bytes within the bounds.
    pub fn moved(&self, alloc: Global, by: i64) -> Result<Layout, Memory>
        requires { (b : ℤ) → HasByte self.now.runs b → IsWithinBounds (b +ℤ by) }
        ensures { IfOk result (λ layout. layout ≡ record self.now { runs = map (moved by) self.now.runs }) }
    {
        match &self.stored {
            Stored::Empty => Ok(Layout {
                stored: Stored::Empty,
            }),
            Stored::Elements {
                element,
                count,
                start,
            } => {
                let run = moved(run_of(*element, *count, *start), by);
                Ok(side_by_side(*element, *count, run.start))
            }
            Stored::Others(other) => {
                let runs = other.runs.moved(by)?;
                boxed(alloc, runs, other.element, other.overlaps)
            }
        }
    }

    /// The number of runs of its bytes.
    pub fn len(&self) -> usize
        ensures { result ≡ length self.now.runs }
    {
        match &self.stored {
            Stored::Empty => 0,
            Stored::Elements { .. } => 1,
            Stored::Others(other) => other.runs.len(),
        }
    }

    /// Whether no byte is touched. The runs ascend, and each has a byte.
    pub fn is_empty(&self) -> bool
        ensures empty { IsTrue result ↔ (self.now.runs ≡ []) }
        ensures in_order { IsCanonical self.now.runs }
    {
        let _ = &self.stored;
        self.len() == 0
    }

    /// The run of its bytes at an index, from 0, in ascending order.
    pub fn get(&self, i: usize) -> Run
        requires { i < length self.now.runs }
        ensures { slice_get self.now.runs i ≡ Some result }
    {
        match &self.stored {
            Stored::Empty => unreachable!(),
            Stored::Elements {
                element,
                count,
                start,
            } => run_of(*element, *count, *start),
            Stored::Others(other) => other.runs.get(i),
        }
    }

    /// The basic datatype that each touched entry has, where there is one.
    pub fn element(&self) -> Option<Basic>
        ensures { result ≡ self.now.element }
    {
        match &self.stored {
            Stored::Empty => None,
            Stored::Elements { element, .. } => Some(*element),
            Stored::Others(other) => other.element,
        }
    }

    /// Whether two touched entries share a byte.
    pub fn overlaps(&self) -> bool
        ensures { result ≡ self.now.overlaps }
    {
        match &self.stored {
            Stored::Empty => false,
            Stored::Elements { .. } => false,
            Stored::Others(other) => other.overlaps,
        }
    }
}

/// The layout of entries side by side.
fn side_by_side(element: Basic, count: u32, start: i64) -> Layout
    requires { IsCanonical (run_of element count start ∷ []) }
    ensures { result ≡ record { runs = run_of element count start ∷ []; element = Some element; overlaps = false } }
{
    Layout {
        stored: Stored::Elements {
            element,
            count,
            start,
        },
    }
}

/// The layout of any bytes.
fn boxed(
    alloc: Global,
    runs: Region,
    element: Option<Basic>,
    overlaps: bool,
) -> Result<Layout, Memory>
    requires { IsCanonical runs }
    ensures { IfOk result (λ layout. layout ≡ record { runs = runs; element = element; overlaps = overlaps }) }
{
    let other = Other {
        runs,
        element,
        overlaps,
    };
    Ok(Layout {
        stored: Stored::Others(Box::new(alloc, other)?),
    })
}

/// How a layout is stored whose entries lie side by side, if they do.
fn stored_within(runs: &Runs, element: Option<Basic>, overlaps: bool) -> Option<Stored>
    ensures { IfSome result (λ stored. layout_in stored ≡ record { runs = runs.now; element = element; overlaps = overlaps }) }
{
    if overlaps {
        return None;
    }
    match (runs.len(), element) {
        (0, None) => Some(Stored::Empty),
        (1, Some(element)) => elements_of(element, runs.get(0)),
        _ => None,
    }
}

/// How a layout is stored that is one run of whole entries of a basic datatype, where it is.
fn elements_of(element: Basic, run: Run) -> Option<Stored>
    ensures { IfSome result (λ stored. layout_in stored ≡ record { runs = run ∷ []; element = Some element; overlaps = false }) }
{
    let count = u32::try_from(run.len.checked_div(element.size())?).ok()?;
    if run_of(element, count, run.start).len == run.len {
        Some(Stored::Elements {
            element,
            count,
            start: run.start,
        })
    } else {
        None
    }
}

/// The bytes of so many entries side by side.
fn run_of(element: Basic, count: u32, start: i64) -> Run
    ensures { result ≡ run_of element count start }
{
    Run {
        start,
        len: u64::from(count) * element.size(),
    }
}
