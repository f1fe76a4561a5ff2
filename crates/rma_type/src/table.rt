//! Tables of datatypes under names.
ghost use Rattle.std.specs.Prelude.{◌≡◌, ◌≢◌, ◌+◌, ◌-◌, ◌^◌, ◌<◌, ◌≤◌, ◌↔◌, length, Some, None, IfOk, OnOk, OnErr, IfErr, IsErrOf, IsTrue, slice_get, slice_index_or, slice_set, option_copied, true, false, is_some, not, nat_eq, option_map, IfSome, ◌++◌, ◌∷◌, [], ◌⊎◌};
ghost use Rattle.std.specs.Cmp.Lexicographic.{pointwise};
ghost use Rattle.rma_base.specs.Limits.{element_limit, address_limit};
ghost use Rattle.rma_type.specs.Names.{id_of, all_live, old_types_of, member_names, old_names};
ghost use Rattle.rma_type.specs.Table.{typemaps, typemap_in, constructor_of, old_types_in, HasOld, names_derived, is_derived, typemap_of};
ghost use Rattle.rma_type.specs.Change.{IsCommitted, IsFreed};
ghost use Rattle.rma_type.specs.inside.Added.{IsAdded};
ghost use Rattle.rma_type.specs.declared.origin.Origin.TheVariants.{Derived};
ghost use Rattle.rma_typemap.specs.Bounds.{entry_count, signature};
ghost use Rattle.rma_type.specs.Signature.{spread, IsRunsOf, IsComponentOf};
ghost use Rattle.rma_type.specs.inside.SignatureSource.{IsSourceOf};
ghost use Rattle.rma_typemap.specs.Typemap.{elements};
ghost use Rattle.rma_typemap.specs.inside.Summary.{summary, blocks_of};
ghost use Rattle.rma_typemap.specs.Space.{is_all_in_space};
ghost use Rattle.rma_typemap.specs.inside.Near.{IsNearby, IsSound};
ghost use Rattle.rma_typemap.specs.Made.{made_of};

use crate::basic::{self, BASICS};
use crate::component::Component;
use crate::fault::{TypeError, TypeFault};
use crate::id::TypeId;
use crate::origin::Origin;
use crate::sig_run::SigRun;
use crate::signature;
use crate::signature_source::SignatureSource;
use indexmap::IndexMap;
use rma_base::{Memory, Name, Sequence};
use rma_datatype::{Basic, Make, Member};
use rma_typemap::{Blocks, Made, Summary};
use std::alloc::Global;
use std::marker::Model;

/// What is kept of a datatype.
#[derive(Drop)]
pub(crate) struct Kept {
    /// Where the datatype comes from.
    pub(crate) origin: Origin,
    /// Whether it is committed.
    pub(crate) committed: bool,
    /// The summary of its typemap.
    pub(crate) summary: Summary,
    /// The number of its signature.
    pub(crate) signature: usize,
}

/// What is to be kept of a new datatype.
#[derive(Drop)]
pub(crate) struct Draft {
    /// Where the datatype comes from.
    pub(crate) origin: Origin,
    /// Whether it is committed.
    pub(crate) committed: bool,
    /// The summary of its typemap.
    pub(crate) summary: Summary,
    /// Where it takes its signature.
    pub(crate) source: SignatureSource,
}

/// The datatypes of one rank, by the names that it gave them.
#[derive(Drop)]
pub struct TypeTable {
    /// The datatypes by their numbers, the basic ones first.
    types: Vec<Kept>,
    /// The signatures by their numbers, each as its runs. Datatypes of one signature may share it.
    signatures: Vec<Vec<SigRun>>,
    /// The live names, and what they represent.
    live: IndexMap<Name, TypeId>,
}

impl Model for TypeTable {
    ghost use Rattle.rma_type.specs.Table.{Table};

    ghost Value = { Table };

    ghost use Rattle.rma_type.specs.inside.Kept.{table_of, IsTable};

    ghost view = { table_of };

    ghost invariant = { IsTable };
}

impl TypeTable {
    ghost use Rattle.rma_type.specs.Table.{ComesAfter};
    ghost use Rattle.rma_type.specs.inside.Added.{summary_of_new};
    ghost use Rattle.rma_type.specs.inside.Kept.{IsKept};
    ghost use Rattle.rma_type.specs.inside.Put.{IsPut, IsWithBasic};
    ghost use Rattle.rma_type.specs.FirstTable.{basics, table_of_basics};
    ghost use Rattle.rma_type.specs.inside.Words.{words_differ};

    /// The table of a rank that made no datatype yet: each basic one is live under its word, and committed.
    pub fn new(alloc: Global) -> Result<TypeTable, Memory>
        ensures { IfOk result (λ table. table ≡ table_of_basics basics) }
    {
        let mut table = TypeTable::empty(alloc);
        match table.add_basics(alloc, &BASICS) {
            Ok(()) => Ok(table),
            Err(error) => Err(error),
        }
    }

    /// The table without a datatype.
    fn empty(alloc: Global) -> TypeTable
        ensures { result ≡ table_of_basics [] }
    {
        TypeTable {
            types: Vec::new(alloc),
            signatures: Vec::new(alloc),
            live: IndexMap::new(alloc),
        }
    }

    /// Puts basic datatypes of different words into an empty table.
    fn add_basics(&mut self, alloc: Global, basics: &[Basic]) -> Result<(), Memory>
        requires empty { self.old ≡ table_of_basics [] }
        requires differ { words_differ basics.now ≡ true }
        requires few { length basics.now < 2 ^ 31 }
        ensures { OnOk result (self.new ≡ table_of_basics basics.now) }
    {
        for basic in basics {
            if let Err(error) = self.add_basic(alloc, *basic) {
                return Err(error);
            }
        }
        Ok(())
    }

    /// Puts a basic datatype under its word, committed.
    fn add_basic(&mut self, alloc: Global, basic: Basic) -> Result<(), Memory>
        requires { length self.old.origins + 1 < 2 ^ 32 }
        ensures { OnOk result (IsWithBasic self.old self.new basic) }
    {
        let draft = Draft {
            origin: Origin::Basic(basic),
            committed: true,
            summary: Summary::single(basic),
            source: SignatureSource::Own(signature::single(alloc, basic)?),
        };
        let name = basic::name_of(alloc, basic)?;
        match self.put(name, draft) {
            Ok(_) => Ok(()),
            Err(error) => Err(error),
        }
    }

    /// Where the table takes its memory.
    pub fn allocator(&self) -> Global {
        *self.types.allocator()
    }

    /// The number of datatypes that the table ever had, the basic ones included.
    pub fn types(&self) -> u32
        ensures { result ≡ length self.now.origins }
    {
        self.types.len() as u32
    }

    /// The datatype of a live name.
    pub fn find(&self, name: &Name) -> Option<TypeId>
        ensures value { result ≡ id_of self.now.live name.now }
        ensures within { IfSome result (λ id. id.0 < length self.now.origins) }
    {
        self.live.get(name).copied()
    }

    /// Whether the datatype is committed.
    pub fn committed(&self, id: TypeId) -> bool
        requires { id.0 < length self.now.origins }
        ensures { slice_get self.now.committed id.0 ≡ Some result }
    {
        self.types[id.0 as usize].committed
    }

    /// The summary of the datatype.
    pub(crate) fn summary(&self, id: TypeId) -> &Summary
        requires { id.0 < length self.now.origins }
        ensures value { result.now ≡ summary (typemap_in (typemaps self.now.origins) id) }
        ensures near { IsNearby address_limit result.now }
        ensures sound { IsSound result.now }
        ensures few { result.now.entries ≤ element_limit }
    {
        &self.types[id.0 as usize].summary
    }

    /// The size, the bounds and the blocks of the datatype.
    pub fn made(&self, id: TypeId) -> Made
        requires { id.0 < length self.now.origins }
        ensures { result ≡ made_of (typemap_in (typemaps self.now.origins) id) }
    {
        self.summary(id).made()
    }

    /// The number of elements of the datatype.
    pub fn entries(&self, id: TypeId) -> u64
        requires { id.0 < length self.now.origins }
        ensures count { result ≡ entry_count (typemap_in (typemaps self.now.origins) id) }
        ensures few { result ≤ element_limit }
    {
        self.summary(id).entries
    }

    /// The basic datatype that the datatype is, if it is one.
    pub fn basic(&self, id: TypeId) -> Option<Basic>
        requires { id.0 < length self.now.origins }
        ensures is { IfSome result (λ basic. slice_get self.now.origins id.0 ≡ Some (Origin.Basic basic)) }
        ensures derived { is_some result ≡ not (is_derived (slice_get self.now.origins id.0)) }
    {
        match &self.types[id.0 as usize].origin {
            Origin::Basic(basic) => Some(*basic),
            Origin::Derived { .. } => None,
        }
    }

    /// The elements of the datatype in order, as blocks.
    pub fn blocks(&self, id: TypeId) -> Option<Blocks>
        requires { id.0 < length self.now.origins }
        ensures { result ≡ blocks_of (elements (typemap_in (typemaps self.now.origins) id)) }
    {
        self.summary(id).blocks
    }

    /// The signature of the datatype: the basic datatypes of its elements in order, as runs of equal ones of which
    /// neighbours differ.
    pub fn signature(&self, id: TypeId) -> &[SigRun]
        requires { id.0 < length self.now.origins }
        ensures runs { IsRunsOf (signature (typemap_in (typemaps self.now.origins) id)) result.now }
        ensures few { length (spread result.now) ≤ element_limit }
    {
        self.signatures[self.types[id.0 as usize].signature].as_slice()
    }

    /// The basic datatype that all elements of the datatype have.
    pub fn component(&self, id: TypeId) -> Component
        requires { id.0 < length self.now.origins }
        ensures { IsComponentOf (signature (typemap_in (typemaps self.now.origins) id)) result }
    {
        match self.signature(id) {
            [] => Component::Empty,
            [run] => Component::One(run.basic),
            _ => Component::Mixed,
        }
    }

    /// Whether two datatypes are known to have one signature.
    pub(crate) fn share(&self, a: TypeId, b: TypeId) -> bool
        requires a_within { a.0 < length self.now.origins }
        requires b_within { b.0 < length self.now.origins }
        ensures { IsTrue result → signature (typemap_in (typemaps self.now.origins) a) ≡ signature (typemap_in (typemaps self.now.origins) b) }
    {
        self.types[a.0 as usize].signature == self.types[b.0 as usize].signature
    }

    /// The constructor that made the datatype, and nothing for a basic one.
    pub fn made_by(&self, id: TypeId) -> Option<&Make>
        requires { id.0 < length self.now.origins }
        ensures value { Some (option_copied result) ≡ option_map constructor_of (slice_get self.now.origins id.0) }

        // Its old datatypes are as many as its old names, and each has a lesser number.
        ensures after { IfSome (slice_get self.now.origins id.0) (ComesAfter id.0) }
    {
        match &self.types[id.0 as usize].origin {
            Origin::Basic(_) => None,
            Origin::Derived { constructor, .. } => Some(constructor),
        }
    }

    /// What the i-th old name of the constructor that made the datatype represented then.
    pub fn old(&self, id: TypeId, i: usize) -> TypeId
        requires within { id.0 < length self.now.origins }
        requires old_within { IfSome (slice_get self.now.origins id.0) (HasOld i) }
        ensures value { IfSome (slice_get self.now.origins id.0) (λ origin. slice_get (old_types_in origin) i ≡ Some result) }
        ensures before { result.0 < id.0 }
    {
        match &self.types[id.0 as usize].origin {
            Origin::Basic(_) => unreachable!(),
            Origin::Derived { old_types, .. } => *old_types.get(i),
        }
    }

    /// Commits the datatype of a live name.
    ///
    /// # Errors
    /// [`TypeFault::UnknownType`] where the name is not live.
    pub fn commit(&mut self, name: &Name) -> Result<(), TypeFault>
        ensures fault { IfErr result (λ e. e ≡ TypeFault.UnknownType) }
        ensures unknown { IsErrOf result TypeFault.UnknownType ↔ (id_of self.old.live name.now ≡ None) }
        ensures ok { OnOk result (IsCommitted self.old self.new name.now) }
        ensures err { OnErr result (self.new ≡ self.old) }
    {
        let Some(id) = self.find(name) else {
            return Err(TypeFault::UnknownType);
        };
        self.types[id.0 as usize].committed = true;
        Ok(())
    }

    /// Takes the name of a derived datatype away. Datatypes that were built of it stay.
    ///
    /// # Errors
    /// [`TypeFault::UnknownType`] where the name is not live, or that of a basic datatype.
    pub fn free(&mut self, name: &Name) -> Result<(), TypeFault>
        ensures fault { IfErr result (λ e. e ≡ TypeFault.UnknownType) }
        ensures unknown { IsErrOf result TypeFault.UnknownType ↔ (names_derived self.old name.now ≡ false) }
        ensures ok { OnOk result (IsFreed self.old self.new name.now) }
        ensures err { OnErr result (self.new ≡ self.old) }
    {
        let Some(id) = self.find(name) else {
            return Err(TypeFault::UnknownType);
        };
        if self.made_by(id).is_none() {
            return Err(TypeFault::UnknownType);
        }
        let _ = self.live.swap_remove(name);
        Ok(())
    }

    /// Puts a new datatype under a name. Where memory runs out, a signature of its own may stay that no datatype has.
    fn put(&mut self, name: Name, draft: Draft) -> Result<TypeId, Memory>
        requires room { length self.old.origins + 1 < 2 ^ 32 }
        requires kept { IsKept (typemap_of (typemaps self.old.origins) draft.origin) (length self.old.origins) draft.origin draft.summary }
        requires signed { IsSourceOf self.old.origins (signature (typemap_of (typemaps self.old.origins) draft.origin)) draft.source }
        ensures ok { IfOk result (IsPut self.old self.new name draft.origin draft.committed) }
        ensures err { OnErr result (self.new ≡ self.old) }
    {
        let id = TypeId(self.types.len() as u32);
        let Draft {
            origin,
            committed,
            summary,
            source,
        } = draft;
        let signature = match source {
            SignatureSource::Shared(old) => self.types[old.0 as usize].signature,
            SignatureSource::Own(runs) => signature::keep(&mut self.signatures, runs)?,
        };
        let kept = Kept {
            origin,
            committed,
            summary,
            signature,
        };
        if self.types.push(kept).is_err() {
            return Err(Memory);
        }
        if self.live.insert(name, id).is_err() {
            let _ = self.types.pop();
            return Err(Memory);
        }
        Ok(id)
    }

    /// Puts a datatype under a name that is not live, where its summary is known.
    pub(crate) fn add(
        &mut self,
        name: &Name,
        constructor: Make,
        old_types: Sequence<TypeId>,
        summary: Summary,
        source: SignatureSource,
    ) -> Result<TypeId, Memory>
        requires room { length self.old.origins + 1 < 2 ^ 32 }
        requires old_types_fit { ComesAfter (length self.old.origins) (Derived constructor old_types) }
        requires summary_is { summary ≡ summary_of_new self.old.origins constructor old_types }
        requires in_space { is_all_in_space (typemap_of (typemaps self.old.origins) (Derived constructor old_types)) ≡ true }
        requires few { entry_count (typemap_of (typemaps self.old.origins) (Derived constructor old_types)) ≤ element_limit }
        requires signed { IsSourceOf self.old.origins (signature (typemap_of (typemaps self.old.origins) (Derived constructor old_types))) source }
        ensures ok { IfOk result (IsAdded self.old self.new name.now (Derived constructor old_types)) }
        ensures err { OnErr result (self.new ≡ self.old) }
    {
        let name = name.copy()?;
        let draft = Draft {
            origin: Origin::Derived {
                constructor,
                old_types,
            },
            committed: false,
            summary,
            source,
        };
        self.put(name, draft)
    }

    /// Puts what a live name represents at the end of a list.
    fn push_old_type(&self, name: &Name, old_types: &mut Sequence<TypeId>) -> Result<(), TypeError>
        ensures ok { OnOk result (IfSome (id_of self.now.live name.now) (λ id. old_types.new ≡ old_types.old ++ id ∷ [])) }
        ensures live { OnOk result (is_some (id_of self.now.live name.now) ≡ true) }
        ensures unknown { IfErr result (λ e. (e ≡ TypeError.Memory) ⊎ ((e ≡ TypeError.Fault TypeFault.UnknownType) × (is_some (id_of self.now.live name.now) ≡ false))) }
    {
        let Some(id) = self.find(name) else {
            return Err(TypeError::Fault(TypeFault::UnknownType));
        };
        match old_types.push(id) {
            Ok(()) => Ok(()),
            Err(_) => Err(TypeError::Memory),
        }
    }

    /// What the old names of members represent.
    fn find_members(
        &self,
        members: &[Member],
        old_types: &mut Sequence<TypeId>,
    ) -> Result<(), TypeError>
        requires { old_types.old ≡ [] }
        ensures ok { OnOk result (old_types.new ≡ old_types_of self.now.live (member_names members.now)) }
        ensures live { OnOk result (all_live self.now.live (member_names members.now) ≡ true) }
        ensures unknown { IfErr result (λ e. (e ≡ TypeError.Memory) ⊎ ((e ≡ TypeError.Fault TypeFault.UnknownType) × (all_live self.now.live (member_names members.now) ≡ false))) }
    {
        for member in members {
            if let Err(error) = self.push_old_type(&member.old, old_types) {
                return Err(error);
            }
        }
        Ok(())
    }

    /// What the old names of a constructor represent.
    pub(crate) fn find_old_types(&self, constructor: &Make) -> Result<Sequence<TypeId>, TypeError>
        ensures ok { IfOk result (λ old_types. old_types ≡ old_types_of self.now.live (old_names constructor.now)) }
        ensures after { IfOk result (λ old_types. ComesAfter (length self.now.origins) (Derived constructor.now old_types)) }
        ensures live { OnOk result (all_live self.now.live (old_names constructor.now) ≡ true) }
        ensures unknown { IfErr result (λ e. (e ≡ TypeError.Memory) ⊎ ((e ≡ TypeError.Fault TypeFault.UnknownType) × (all_live self.now.live (old_names constructor.now) ≡ false))) }
    {
        let mut old_types = Sequence::new(*self.types.allocator());
        let found = match constructor {
            Make::Struct { members } => self.find_members(members.as_slice(), &mut old_types),
            Make::Contiguous { old, .. }
            | Make::Vector { old, .. }
            | Make::Hvector { old, .. }
            | Make::Indexed { old, .. }
            | Make::Hindexed { old, .. }
            | Make::IndexedBlock { old, .. }
            | Make::Resized { old, .. }
            | Make::Subarray { old, .. } => self.push_old_type(old, &mut old_types),
        };
        match found {
            Ok(()) => Ok(old_types),
            Err(error) => Err(error),
        }
    }
}
