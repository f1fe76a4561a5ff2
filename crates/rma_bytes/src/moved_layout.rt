//! A layout elsewhere.
ghost use Rattle.std.specs.Prelude.{◌≡◌, ◌<◌, [], length, slice_get, IsTrue, ◌↔◌, Some};
ghost use Rattle.rma_bytes.specs.Layout.{layout_by};

use crate::distance::Distance;
use crate::layout::Layout;
use crate::run::Run;
use rma_datatype::Basic;
use std::marker::Model;

/// A layout with each byte moved by a distance, of which nothing is stated anew.
#[derive(Debug, Drop)]
pub struct MovedLayout<'a> {
    layout: &'a Layout,
    by: Distance,
}

impl<'a> Model for MovedLayout<'a> {
    ghost use Rattle.rma_bytes.specs.Layout.{Layout, layout_by};

    ghost Value = { Layout };

    ghost view = { λ moved. layout_by moved.by moved.layout.now };
}

impl<'a> MovedLayout<'a> {
    /// The layout, moved by a distance.
    #[inline]
    pub fn new(layout: &'a Layout, by: Distance) -> MovedLayout<'a>
        ensures { result ≡ layout_by by layout.now }
    {
        MovedLayout { layout, by }
    }

    /// The layout where it stands.
    #[inline]
    pub fn unmoved(layout: &'a Layout) -> MovedLayout<'a>
        ensures { result ≡ layout.now }
    {
        MovedLayout::new(layout, Distance::zero())
    }

    /// The number of runs of its bytes.
    pub fn len(&self) -> usize
        ensures { result ≡ length self.now.runs }
    {
        self.layout.len()
    }

    /// Whether no byte is touched.
    pub fn is_empty(&self) -> bool
        ensures { IsTrue result ↔ (self.now.runs ≡ []) }
    {
        self.len() == 0
    }

    /// The run of its bytes at an index, from 0, in ascending order.
    pub fn get(&self, i: usize) -> Run
        requires { i < length self.now.runs }
        ensures { slice_get self.now.runs i ≡ Some result }
    {
        let _in_order = self.layout.is_empty();
        let run = self.layout.get(i);
        Run {
            start: run.start + self.by.bytes(),
            ..run
        }
    }

    /// The basic datatype that each touched entry has, where there is one.
    pub fn element(&self) -> Option<Basic>
        ensures { result ≡ self.now.element }
    {
        self.layout.element()
    }

    /// Whether two touched entries share a byte.
    pub fn overlaps(&self) -> bool
        ensures { result ≡ self.now.overlaps }
    {
        self.layout.overlaps()
    }
}
