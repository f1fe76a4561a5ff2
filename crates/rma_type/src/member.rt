//! The members of a struct, each of a datatype of its own.
ghost use Rattle.std.specs.Prelude.{◌≡◌, ◌^◌, ◌+◌, ◌<◌, ◌≤◌, ◌≤ℤ◌, pos, length, All, nat_lt};
ghost use Rattle.rma_base.specs.Limits.{element_limit};
ghost use Rattle.rma_typemap.specs.inside.Near.{IsNearby, IsSound};
ghost use Rattle.rma_typemap.specs.inside.Summary.{with_member, struct_of};
ghost use Rattle.rma_type.specs.inside.Members.{summary_in, with_summaries, member_entries, all_entries};

use crate::id::TypeId;
use crate::table::TypeTable;
use rma_base::limits::ELEMENTS;
use rma_datatype::Member;
use rma_typemap::{Summary, append_block, copies, wide};

impl TypeTable {
    /// The number of elements of a member.
    fn member_entries(&self, member: &Member, old: TypeId) -> u128
        requires within { old.0 < length self.now.origins }
        requires count { pos 0 ≤ℤ member.now.length }
        ensures value { result ≡ member_entries (member.now, summary_in self.now.origins old) }
        ensures small { result < 2 ^ 58 }
    {
        u128::from(copies(member.length)) * u128::from(self.summary(old).entries)
    }

    /// Whether all members together have more elements than `ELEMENTS`.
    pub(crate) fn members_exceed(&self, members: &[Member], old_types: &[TypeId]) -> bool
        requires fit { length old_types.now ≡ length members.now }
        requires within { All (λ id. id.0 < length self.now.origins) old_types.now }
        requires counts { All (λ m. pos 0 ≤ℤ m.length) members.now }
        ensures { result ≡ nat_lt element_limit (all_entries (with_summaries self.now.origins members.now old_types.now)) }
    {
        let mut total = 0;
        for (i, member) in members.iter().enumerate() {
            total += self.member_entries(member, old_types[i]);
        }
        total > u128::from(ELEMENTS)
    }

    /// What is there, and after it a member.
    fn append_member(&self, done: &Summary, member: &Member, old: TypeId) -> Summary
        requires within { old.0 < length self.now.origins }
        requires count { pos 0 ≤ℤ member.now.length }
        requires done_near { IsNearby (2 ^ 83) done.now }
        requires done_sound { IsSound done.now }
        requires few { done.now.entries + member_entries (member.now, summary_in self.now.origins old) ≤ element_limit }
        ensures value { result ≡ with_member done.now (member.now, summary_in self.now.origins old) }
        ensures result_near { IsNearby (2 ^ 83) result }
        ensures result_sound { IsSound result }
        ensures entries { result.entries ≡ done.now.entries + member_entries (member.now, summary_in self.now.origins old) }
    {
        append_block(
            done,
            self.summary(old),
            copies(member.length),
            wide(member.displacement),
        )
    }

    /// The members one after another.
    pub(crate) fn join_members(&self, members: &[Member], old_types: &[TypeId]) -> Summary
        requires fit { length old_types.now ≡ length members.now }
        requires within { All (λ id. id.0 < length self.now.origins) old_types.now }
        requires counts { All (λ m. pos 0 ≤ℤ m.length) members.now }
        requires few { all_entries (with_summaries self.now.origins members.now old_types.now) ≤ element_limit }
        ensures { result ≡ struct_of (with_summaries self.now.origins members.now old_types.now) }
    {
        let mut done = Summary::empty();
        for (i, member) in members.iter().enumerate() {
            done = self.append_member(&done, member, old_types[i]);
        }
        done
    }
}
