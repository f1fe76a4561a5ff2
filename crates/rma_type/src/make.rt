//! New datatypes of a table.
ghost use Rattle.std.specs.Prelude.{◌≡◌, ◌^◌, ◌+◌, ◌<◌, ◌≤◌, length, Some, None, IfOk, OnOk, OnErr, IfErr, true, false, nat_lt};
ghost use Rattle.rma_base.specs.Limits.{element_limit};
ghost use Rattle.rma_type.specs.declared.origin.Origin.TheVariants.{Derived};
ghost use Rattle.rma_typemap.specs.Bounds.{entry_count};
ghost use Rattle.rma_type.specs.Table.{ComesAfter};
ghost use Rattle.rma_type.specs.inside.Added.{summary_of_new};
ghost use Rattle.rma_type.specs.Refusal.{refusal, has_negative, breaks_array, has_large_array, IsErrorOf};
ghost use Rattle.rma_type.specs.Change.{IsMade};
ghost use Rattle.rma_type.specs.inside.Made.{IsChecked, IsMeasured, typemap_of_new, refusal_of_new};

use crate::check::{broken, large, negative};
use crate::fault::{TypeError, TypeFault};
use crate::id::TypeId;
use crate::table::TypeTable;
use rma_base::{Name, Sequence};
use rma_datatype::Make;
use rma_typemap::{Summary, build, exceeds};

impl TypeTable {
    /// Whether a constructor would make more than `ELEMENTS` elements of its old datatypes.
    fn too_many(&self, constructor: &Make, old_types: &[TypeId]) -> bool
        requires after { ComesAfter (length self.now.origins) (Derived constructor.now old_types.now) }
        requires counts { has_negative constructor.now ≡ false }
        requires parts { breaks_array constructor.now ≡ false }
        ensures { result ≡ nat_lt element_limit (entry_count (typemap_of_new self.now.origins constructor.now old_types.now)) }
    {
        match constructor {
            Make::Struct { members } => self.members_exceed(members.as_slice(), old_types),
            _ => exceeds(constructor, self.summary(old_types[0]).entries),
        }
    }

    /// What a constructor makes of its old datatypes.
    fn joined(&self, constructor: &Make, old_types: &[TypeId]) -> Summary
        requires after { ComesAfter (length self.now.origins) (Derived constructor.now old_types.now) }
        requires counts { has_negative constructor.now ≡ false }
        requires parts { breaks_array constructor.now ≡ false }
        requires small { has_large_array constructor.now ≡ false }
        requires few { entry_count (typemap_of_new self.now.origins constructor.now old_types.now) ≤ element_limit }
        ensures { result ≡ summary_of_new self.now.origins constructor.now old_types.now }
    {
        match constructor {
            Make::Struct { members } => self.join_members(members.as_slice(), old_types),
            _ => build(constructor, self.summary(old_types[0])),
        }
    }

    /// What a constructor makes of its old datatypes, where that is not too large.
    fn measure(&self, constructor: &Make, old_types: &[TypeId]) -> Result<Summary, TypeFault>
        requires after { ComesAfter (length self.now.origins) (Derived constructor.now old_types.now) }
        requires counts { has_negative constructor.now ≡ false }
        requires parts { breaks_array constructor.now ≡ false }
        ensures ok { IfOk result (IsMeasured (typemap_of_new self.now.origins constructor.now old_types.now) constructor.now) }
        ensures fault { IfErr result (λ e. refusal_of_new (typemap_of_new self.now.origins constructor.now old_types.now) constructor.now ≡ Some e) }
    {
        if self.too_many(constructor, old_types) {
            return Err(TypeFault::TooManyElements);
        }
        if large(constructor) {
            return Err(TypeFault::OutOfSpace);
        }
        let summary = self.joined(constructor, old_types);
        if summary.is_in_space() {
            Ok(summary)
        } else {
            Err(TypeFault::OutOfSpace)
        }
    }

    /// The old datatypes of a constructor, where its names and its arguments are in order.
    fn check(&self, name: &Name, constructor: &Make) -> Result<Sequence<TypeId>, TypeError>
        ensures ok { IfOk result (IsChecked self.now name.now constructor.now) }
        ensures fault { IfErr result (IsErrorOf (refusal self.now name.now constructor.now)) }
    {
        let old_types = self.find_old_types(constructor)?;
        if self.find(name).is_some() {
            return Err(TypeError::Fault(TypeFault::NameInUse));
        }
        if negative(constructor) {
            return Err(TypeError::Fault(TypeFault::NegativeCount));
        }
        if broken(constructor) {
            return Err(TypeError::Fault(TypeFault::BadSubarray));
        }
        Ok(old_types)
    }

    /// Makes a datatype under a name.
    ///
    /// # Errors
    /// The first [`TypeFault`], in their order, whose rule holds; and [`TypeError::Memory`].
    pub fn make(&mut self, name: &Name, constructor: Make) -> Result<TypeId, TypeError>
        requires room { length self.old.origins + 1 < 2 ^ 32 }
        ensures ok { IfOk result (IsMade self.old self.new name.now constructor) }
        ensures taken { OnOk result (refusal self.old name.now constructor ≡ None) }
        ensures fault { IfErr result (IsErrorOf (refusal self.old name.now constructor)) }
        ensures err { OnErr result (self.new ≡ self.old) }
    {
        let old_types = self.check(name, &constructor)?;
        let summary = match self.measure(&constructor, old_types.as_slice()) {
            Ok(summary) => summary,
            Err(fault) => return Err(TypeError::Fault(fault)),
        };
        let Ok(source) = self.find_source(&constructor, old_types.as_slice(), summary.entries)
        else {
            return Err(TypeError::Memory);
        };
        match self.add(name, constructor, old_types, summary, source) {
            Ok(id) => Ok(id),
            Err(_) => Err(TypeError::Memory),
        }
    }
}
