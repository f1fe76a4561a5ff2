//! Where new datatypes of a table take their signatures.
ghost use Rattle.std.specs.Prelude.{◌≡◌, ◌^◌, ◌*◌, ◌<◌, ◌≤◌, ◌≤ℤ◌, pos, ℕ, length, All, IfOk, false};
ghost use Rattle.rma_base.specs.Limits.{element_limit};
ghost use Rattle.rma_typemap.specs.Bounds.{signature, entry_count};
ghost use Rattle.rma_typemap.specs.Constructors.{times};
ghost use Rattle.rma_typemap.specs.Signature.{copies};
ghost use Rattle.rma_type.specs.Table.{typemaps, typemap_in, ComesAfter};
ghost use Rattle.rma_type.specs.Refusal.{has_negative, breaks_array};
ghost use Rattle.rma_type.specs.inside.Made.{typemap_of_new};
ghost use Rattle.rma_type.specs.inside.SignatureSource.{IsSourceOf, signature_in, with_signatures, struct_signature};
ghost use Rattle.rma_type.specs.declared.origin.Origin.TheVariants.{Derived};

use crate::id::TypeId;
use crate::sig_run::SigRun;
use crate::signature::append_copies;
use crate::table::TypeTable;
use rma_base::Memory;
use rma_datatype::{Make, Member};
use rma_typemap::copies;

/// Where a new datatype takes its signature.
#[derive(Drop)]
pub(crate) enum SignatureSource {
    /// It is that of a datatype of the table.
    Shared(TypeId),
    /// It is one of its own.
    Own(Vec<SigRun>),
}

/// The number of copies of the old datatype that a member has.
fn member_copies(member: &Member) -> u64
    requires { pos 0 ≤ℤ member.now.length }
    ensures { result ≡ times member.now.length }
{
    copies(member.length)
}

impl TypeTable {
    /// The signature of copies of an old datatype with `entries` elements in all: that of the old one, where it has as many.
    fn copied_source(&self, old: TypeId, entries: u64) -> Result<SignatureSource, Memory>
        requires within { old.0 < length self.now.origins }
        requires few { entries ≤ element_limit }
        ensures { (n : ℕ) → entries ≡ n * entry_count (typemap_in (typemaps self.now.origins) old) → IfOk result (IsSourceOf self.now.origins (copies n (signature_in self.now.origins old))) }
    {
        let one = self.summary(old).entries;
        if one == 0 || entries == one {
            return Ok(SignatureSource::Shared(old));
        }
        let mut runs = Vec::new(self.allocator());
        append_copies(&mut runs, self.signature(old), entries / one)?;
        Ok(SignatureSource::Own(runs))
    }

    /// The signature of members one after another.
    fn member_source(
        &self,
        members: &[Member],
        old_types: &[TypeId],
    ) -> Result<SignatureSource, Memory>
        requires fit { length old_types.now ≡ length members.now }
        requires within { All (λ id. id.0 < length self.now.origins) old_types.now }
        requires counts { All (λ m. pos 0 ≤ℤ m.length) members.now }
        requires few { length (struct_signature (with_signatures self.now.origins members.now old_types.now)) ≤ element_limit }
        ensures { IfOk result (IsSourceOf self.now.origins (struct_signature (with_signatures self.now.origins members.now old_types.now))) }
    {
        if let [member] = members
            && member_copies(member) == 1
        {
            return Ok(SignatureSource::Shared(old_types[0]));
        }
        let mut runs = Vec::new(self.allocator());
        for (i, member) in members.iter().enumerate() {
            append_copies(
                &mut runs,
                self.signature(old_types[i]),
                member_copies(member),
            )?;
        }
        Ok(SignatureSource::Own(runs))
    }

    /// The signature of what a constructor makes of its old datatypes, with `entries` elements.
    pub(crate) fn find_source(
        &self,
        constructor: &Make,
        old_types: &[TypeId],
        entries: u64,
    ) -> Result<SignatureSource, Memory>
        requires after { ComesAfter (length self.now.origins) (Derived constructor.now old_types.now) }
        requires counts { has_negative constructor.now ≡ false }
        requires parts { breaks_array constructor.now ≡ false }
        requires count { entries ≡ entry_count (typemap_of_new self.now.origins constructor.now old_types.now) }
        requires few { entries ≤ element_limit }
        ensures { IfOk result (IsSourceOf self.now.origins (signature (typemap_of_new self.now.origins constructor.now old_types.now))) }
    {
        match constructor {
            Make::Struct { members } => self.member_source(members.as_slice(), old_types),
            _ => self.copied_source(old_types[0], entries),
        }
    }
}
