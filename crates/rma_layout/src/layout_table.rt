//! Datatypes with the layouts that came last.
ghost use Rattle.std.specs.Prelude.{◌≡◌, ◌*◌, ◌+◌, ◌<◌, ◌≤◌, ◌^◌, ◌↔◌, List, pos, ◌≤ℤ◌, length, IfOk, OnOk, OnErr, IfErr, IfSome, IsErrOf, None, false};
ghost use Rattle.rma_base.specs.Limits.{address_limit};
ghost use Rattle.rma_typemap.specs.Bounds.{entry_count};
ghost use Rattle.rma_type.specs.declared.origin.Origin.{Origin};
ghost use Rattle.rma_type.specs.Names.{id_of};
ghost use Rattle.rma_type.specs.Table.{names_derived, typemaps, typemap_in};
ghost use Rattle.rma_type.specs.Change.{IsCommitted, IsFreed, IsMade};
ghost use Rattle.rma_type.specs.Refusal as rule;
ghost use Rattle.rma_layout.specs.Touched.{touched};
ghost use Rattle.rma_layout.specs.Layout.{IsLayoutOf};
ghost use Rattle.rma_layout.specs.Refusal.{refusal, IsErrorOf};
ghost use Rattle.rma_layout.specs.inside.Known.{AreKnown, IsKnown};

use crate::basic::side_by_side;
use crate::ends::ends_of;
use crate::fault::LayoutError;
use crate::known_layout::KnownLayout;
use crate::placement::place;
use crate::space::Space;
use rma_base::{Memory, Name};
use rma_bytes::Layout;
use rma_datatype::Make;
use rma_type::{TypeError, TypeFault, TypeId, TypeTable};
use std::alloc::Global;
use std::marker::Model;

/// How many layouts of one run at most are known at most, and how many of several.
const SLOTS: usize = 64;

/// The datatypes of one rank, and the layouts that were placed last. A program uses the same buffers over and over, or moves
/// along them: a layout is had once, and then moved, for all buffers that differ by their address alone. Contracts see the
/// datatypes.
#[derive(Drop)]
pub struct LayoutTable {
    /// The datatypes.
    types: TypeTable,
    /// Known layouts, each in a slot of its own: `SLOTS` for those of one run at most, which take no place of the others, and
    /// behind these as many for those of several.
    known: Vec<Option<KnownLayout>>,
}

impl Model for LayoutTable {
    ghost use Rattle.rma_type.specs.Table.{Table};
    ghost use Rattle.rma_layout.specs.inside.Known.{AreKnown};

    ghost Value = { Table };

    ghost view = { λ table. table.types };

    ghost invariant = { λ table. AreKnown table.types.origins table.known.items };
}

impl LayoutTable {
    /// The table of these datatypes. No layout is known yet.
    pub fn new(types: TypeTable) -> Result<LayoutTable, Memory>
        ensures { IfOk result (λ table. table ≡ types) }
    {
        let known = no_layouts(types.allocator())?;
        Ok(LayoutTable { types, known })
    }

    /// The datatypes.
    pub fn types(&self) -> &TypeTable
        ensures { result.now ≡ self.now }
    {
        &self.types
    }

    /// Makes a datatype under a name, as [`TypeTable::make`] does.
    ///
    /// # Errors
    ///
    /// Those of [`TypeTable::make`].
    pub fn make(&mut self, name: &Name, constructor: Make) -> Result<TypeId, TypeError>
        requires room { length self.old.origins + 1 < 2 ^ 32 }
        ensures ok { IfOk result (IsMade self.old self.new name.now constructor) }
        ensures taken { OnOk result (rule.refusal self.old name.now constructor ≡ None) }
        ensures fault { IfErr result (rule.IsErrorOf (rule.refusal self.old name.now constructor)) }
        ensures err { OnErr result (self.new ≡ self.old) }
    {
        match self.types.make(name, constructor) {
            Ok(id) => Ok(id),
            Err(error) => Err(error),
        }
    }

    /// Commits the datatype of a live name, as [`TypeTable::commit`] does.
    ///
    /// # Errors
    ///
    /// That of [`TypeTable::commit`].
    pub fn commit(&mut self, name: &Name) -> Result<(), TypeFault>
        ensures fault { IfErr result (λ e. e ≡ TypeFault.UnknownType) }
        ensures unknown { IsErrOf result TypeFault.UnknownType ↔ (id_of self.old.live name.now ≡ None) }
        ensures ok { OnOk result (IsCommitted self.old self.new name.now) }
        ensures err { OnErr result (self.new ≡ self.old) }
    {
        self.types.commit(name)
    }

    /// Takes the name of a derived datatype away, as [`TypeTable::free`] does.
    ///
    /// # Errors
    ///
    /// That of [`TypeTable::free`].
    pub fn free(&mut self, name: &Name) -> Result<(), TypeFault>
        ensures fault { IfErr result (λ e. e ≡ TypeFault.UnknownType) }
        ensures unknown { IsErrOf result TypeFault.UnknownType ↔ (names_derived self.old name.now ≡ false) }
        ensures ok { OnOk result (IsFreed self.old self.new name.now) }
        ensures err { OnErr result (self.new ≡ self.old) }
    {
        self.types.free(name)
    }

    /// The layout of the first `entries` elements of `count` copies of a datatype at an address, as [`place`] gives it.
    ///
    /// # Errors
    ///
    /// Those of [`place`].
    pub fn place(
        &mut self,
        datatype: TypeId,
        count: u32,
        address: i64,
        entries: u64,
        space: Space,
    ) -> Result<Layout, LayoutError>
        requires within { datatype.0 < length self.old.origins }
        requires low { pos 0 ≤ℤ address }
        requires high { address ≤ℤ pos address_limit }
        requires there { entries ≤ count * entry_count (typemap_in (typemaps self.old.origins) datatype) }
        ensures ok { IfOk result (IsLayoutOf (touched (typemap_in (typemaps self.old.origins) datatype) count address entries)) }
        ensures taken { OnOk result (refusal space (touched (typemap_in (typemaps self.old.origins) datatype) count address entries) entries ≡ None) }
        ensures fault { IfErr result (IsErrorOf (refusal space (touched (typemap_in (typemaps self.old.origins) datatype) count address entries) entries)) }
        ensures same { self.new ≡ self.old }
    {
        match space {
            Space::Local => self.place_local(datatype, count, address, entries),
            Space::Target => self.place_at_target(datatype, count, address, entries),
        }
    }

    /// The same, at an address of the caller.
    #[inline]
    pub fn place_local(
        &mut self,
        datatype: TypeId,
        count: u32,
        address: i64,
        entries: u64,
    ) -> Result<Layout, LayoutError>
        requires within { datatype.0 < length self.old.origins }
        requires low { pos 0 ≤ℤ address }
        requires high { address ≤ℤ pos address_limit }
        requires there { entries ≤ count * entry_count (typemap_in (typemaps self.old.origins) datatype) }
        ensures ok { IfOk result (IsLayoutOf (touched (typemap_in (typemaps self.old.origins) datatype) count address entries)) }
        ensures taken { OnOk result (refusal Space.Local (touched (typemap_in (typemaps self.old.origins) datatype) count address entries) entries ≡ None) }
        ensures fault { IfErr result (IsErrorOf (refusal Space.Local (touched (typemap_in (typemaps self.old.origins) datatype) count address entries) entries)) }
        ensures same { self.new ≡ self.old }
    {
        if let Some(layout) = side_by_side(&self.types, datatype, count, address, entries) {
            return Ok(layout);
        }
        let alloc = self.types.allocator();
        match self.known(datatype, count, entries) {
            Some(known) => known.placed_at(alloc, address, Space::Local),
            None => self.place_anew(datatype, count, address, entries, Space::Local),
        }
    }

    /// The same, at a displacement from where a target's part begins.
    #[inline]
    pub fn place_at_target(
        &mut self,
        datatype: TypeId,
        count: u32,
        address: i64,
        entries: u64,
    ) -> Result<Layout, LayoutError>
        requires within { datatype.0 < length self.old.origins }
        requires low { pos 0 ≤ℤ address }
        requires high { address ≤ℤ pos address_limit }
        requires there { entries ≤ count * entry_count (typemap_in (typemaps self.old.origins) datatype) }
        ensures ok { IfOk result (IsLayoutOf (touched (typemap_in (typemaps self.old.origins) datatype) count address entries)) }
        ensures taken { OnOk result (refusal Space.Target (touched (typemap_in (typemaps self.old.origins) datatype) count address entries) entries ≡ None) }
        ensures fault { IfErr result (IsErrorOf (refusal Space.Target (touched (typemap_in (typemaps self.old.origins) datatype) count address entries) entries)) }
        ensures same { self.new ≡ self.old }
    {
        if let Some(layout) = side_by_side(&self.types, datatype, count, address, entries) {
            return Ok(layout);
        }
        let alloc = self.types.allocator();
        match self.known(datatype, count, entries) {
            Some(known) => known.placed_at(alloc, address, Space::Target),
            None => self.place_anew(datatype, count, address, entries, Space::Target),
        }
    }

    /// The layout of so many elements that came before, if it is known.
    #[inline]
    fn known(&self, datatype: TypeId, count: u32, entries: u64) -> Option<&KnownLayout>
        ensures known { IfSome result (λ known. IsKnown self.now.origins known.now) }
        ensures datatype { IfSome result (λ known. known.now.datatype ≡ datatype) }
        ensures count { IfSome result (λ known. known.now.count ≡ count) }
        ensures entries { IfSome result (λ known. known.now.entries ≡ entries) }
    {
        let slot = slot_of(datatype, entries);
        match self.known_in(slot, datatype, count, entries) {
            Some(known) => Some(known),
            None => self.known_in(SLOTS + slot, datatype, count, entries),
        }
    }

    /// The layout of so many elements that is known in a slot, if it is.
    #[inline]
    fn known_in(
        &self,
        slot: usize,
        datatype: TypeId,
        count: u32,
        entries: u64,
    ) -> Option<&KnownLayout>
        ensures known { IfSome result (λ known. IsKnown self.now.origins known.now) }
        ensures datatype { IfSome result (λ known. known.now.datatype ≡ datatype) }
        ensures count { IfSome result (λ known. known.now.count ≡ count) }
        ensures entries { IfSome result (λ known. known.now.entries ≡ entries) }
    {
        match self.known.get(slot) {
            Some(Some(known))
                if known.datatype == datatype && known.count == count && known.entries == entries =>
                { Some(known) }
            _ => None,
        }
    }

    /// The layout of elements that is not known; it is from now on.
    #[inline(never)]
    fn place_anew(
        &mut self,
        datatype: TypeId,
        count: u32,
        address: i64,
        entries: u64,
        space: Space,
    ) -> Result<Layout, LayoutError>
        requires within { datatype.0 < length self.old.origins }
        requires low { pos 0 ≤ℤ address }
        requires high { address ≤ℤ pos address_limit }
        requires there { entries ≤ count * entry_count (typemap_in (typemaps self.old.origins) datatype) }
        ensures ok { IfOk result (IsLayoutOf (touched (typemap_in (typemaps self.old.origins) datatype) count address entries)) }
        ensures taken { OnOk result (refusal space (touched (typemap_in (typemaps self.old.origins) datatype) count address entries) entries ≡ None) }
        ensures fault { IfErr result (IsErrorOf (refusal space (touched (typemap_in (typemaps self.old.origins) datatype) count address entries) entries)) }
        ensures same { self.new ≡ self.old }
    {
        let layout = match place(&self.types, datatype, count, address, entries, space) {
            Ok(layout) => layout,
            Err(error) => return Err(error),
        };
        let Ok(same) = layout.moved(self.types.allocator(), 0) else {
            return Err(LayoutError::Memory);
        };
        let known = KnownLayout {
            datatype,
            count,
            entries,
            address,
            ends: ends_of(&same),
            layout: same,
        };
        keep(&mut self.known, known);
        Ok(layout)
    }
}

/// Keeps a layout in place of the one in its slot.
fn keep(slots: &mut Vec<Option<KnownLayout>>, known: KnownLayout)
    ensures { (origins : List Origin) → AreKnown origins slots.old.items → IsKnown origins known → AreKnown origins slots.new.items }
{
    let slot = slot_of(known.datatype, known.entries);
    let at = if known.layout.len() < 2 {
        slot
    } else {
        SLOTS + slot
    };
    if let Some(slot) = slots.get_mut(at) {
        *slot = Some(known);
    }
}

/// Slots without layouts.
fn no_layouts(alloc: Global) -> Result<Vec<Option<KnownLayout>>, Memory>
    ensures { IfOk result (λ known. (origins : List Origin) → AreKnown origins known.items) }
{
    let mut known = Vec::with_capacity(alloc, 2 * SLOTS)?;
    for _ in 0..2 * SLOTS {
        known.push(None)?;
    }
    Ok(known)
}

/// What mixes a number of elements: 2 to the 64th, divided by the golden ratio. Round numbers come to slots of their own.
const MIXER: u64 = 11_400_714_819_323_198_485;

/// The slot of a layout of so many elements of a datatype, among those of its kind.
fn slot_of(datatype: TypeId, entries: u64) -> usize
    ensures { result < SLOTS }
{
    let mixed = entries.wrapping_mul(MIXER) >> 58;
    (u64::from(datatype.0) ^ mixed) as usize % SLOTS
}
