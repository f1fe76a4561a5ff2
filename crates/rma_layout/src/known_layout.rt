//! A layout that came before.
ghost use Rattle.std.specs.Prelude.{◌≡◌, ◌⊎◌, ◌-ℤ◌, pos, ◌≤ℤ◌, map, IfOk, IfErr, OnOk, IsTrue, ◌↔◌};
ghost use Rattle.rma_base.specs.Limits.{address_limit};
ghost use Rattle.rma_bytes.specs.Runs.{IsCanonical, moved};
ghost use Rattle.rma_typemap.specs.inside.Near.{IsNear};
ghost use Rattle.rma_layout.specs.inside.Known.{AreEnds, LieIn};

use crate::ends::Ends;
use crate::fault::{LayoutError, LayoutFault};
use crate::space::Space;
use rma_bytes::Layout;
use rma_type::TypeId;
use std::alloc::Global;

/// A layout that came before: that of the first elements of copies of a datatype at an address.
#[derive(Debug, Drop)]
pub(crate) struct KnownLayout {
    /// The datatype.
    pub(crate) datatype: TypeId,
    /// How many copies there are.
    pub(crate) count: u32,
    /// How many elements are touched.
    pub(crate) entries: u64,
    /// The address.
    pub(crate) address: i64,
    /// Between which addresses its bytes lie, where it has one.
    pub(crate) ends: Option<Ends>,
    /// The layout.
    pub(crate) layout: Layout,
}

impl KnownLayout {
    /// The layout of the same elements at another address, where they lie in a space.
    #[inline]
    pub(crate) fn placed_at(
        &self,
        alloc: Global,
        address: i64,
        space: Space,
    ) -> Result<Layout, LayoutError>
        requires canonical { IsCanonical self.now.layout.runs }
        requires low { pos 0 ≤ℤ address }
        requires high { address ≤ℤ pos address_limit }
        requires own_low { pos 0 ≤ℤ self.now.address }
        requires own_high { self.now.address ≤ℤ pos address_limit }
        requires ends { AreEnds self.now.layout.runs self.now.ends }
        ensures ok { IfOk result (λ layout. layout ≡ record self.now.layout { runs = map (moved (address -ℤ self.now.address)) self.now.layout.runs }) }
        ensures within { OnOk result (LieIn space (map (moved (address -ℤ self.now.address)) self.now.layout.runs)) }
        ensures fault { IfErr result (λ e. e ≡ LayoutError.Memory ⊎ ((e ≡ LayoutError.Fault LayoutFault.OutOfSpace) × (LieIn space (map (moved (address -ℤ self.now.address)) self.now.layout.runs) → ⊥))) }
    {
        let by = address - self.address;
        if !self.lies_in(by, space) {
            return Err(LayoutError::Fault(LayoutFault::OutOfSpace));
        }
        match self.layout.moved(alloc, by) {
            Ok(layout) => Ok(layout),
            Err(_) => Err(LayoutError::Memory),
        }
    }

    /// Whether the bytes lie in a space once they are moved.
    fn lies_in(&self, by: i64, space: Space) -> bool
        requires canonical { IsCanonical self.now.layout.runs }
        requires ends { AreEnds self.now.layout.runs self.now.ends }
        requires near { IsNear address_limit by }
        ensures { IsTrue result ↔ LieIn space (map (moved by) self.now.layout.runs) }
    {
        match self.ends {
            Some(ends) => space.has(i128::from(ends.start + by), i128::from(ends.end + by)),
            None => true,
        }
    }
}
