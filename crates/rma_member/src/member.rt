//! Who has to make a call: the members of its communicator, or of the communicator of its window.
ghost use Rattle.std.specs.Prelude.{◌≡◌, ◌<◌, ◌++◌, [], ℕ, List, Some, false, length, slice_get, IfOk, OnOk};
ghost use Rattle.std.specs.List.{cons_option};
ghost use Rattle.rma_call.specs.Call.{Call, RankCalls, what_of};
ghost use Rattle.rma_member.specs.Declaration.{declaration_of, declarations, declarations_of};
ghost use Rattle.rma_member.specs.Attribute.{declared, created};
ghost use Rattle.rma_member.specs.Member.{members_of_comm, members};
ghost use Rattle.rma_member.specs.inside.Member.{AreMembers};
ghost use Rattle.rma_member.specs.inside.Nothing.{DeclaresNothing};

use crate::attribute::WindowAttributes;
use crate::declaration::{Declaration, Declarations, push_declaration};
use rma_base::{Memory, Name, Rank, RankSet, Sequence};
use rma_call::{CallList, FrameCall, RankCalls, WhatRef, WindowCall};
use rma_round::Kind;
use std::alloc::Global;

/// The communicators and the windows of a run, with their members.
#[derive(Drop)]
pub struct Members {
    /// The communicators that the calls of the run declare.
    pub comms: Declarations<RankSet>,
    /// The windows that they create.
    pub creations: Declarations<WindowAttributes>,
    /// All ranks, which are the members of `world`.
    everyone: Vec<u32>,
}

impl Members {
    /// Those of the run of these ranks, whose calls declare these communicators and create these windows.
    ///
    /// # Errors
    ///
    /// `Memory` where memory ran out.
    pub fn new(
        alloc: Global,
        ranks: &[RankCalls],
        comms: Sequence<Declaration<RankSet>>,
        creations: Sequence<Declaration<WindowAttributes>>,
    ) -> Result<Members, Memory>
        requires comms { comms ≡ declarations declared ranks.now }
        requires creations { creations ≡ declarations created ranks.now }
        ensures { IfOk result (λ it. AreMembers ranks.now it) }
    {
        let comms = Declarations::new(alloc, comms)?;
        let creations = Declarations::new(alloc, creations)?;
        let everyone = ranks.iter().map(|rank| rank.rank().0).collect(alloc)?;
        Ok(Members {
            comms,
            creations,
            everyone,
        })
    }

    /// Those of the run of these ranks.
    ///
    /// # Errors
    ///
    /// `Memory` where memory ran out.
    pub fn of_calls(alloc: Global, ranks: &[RankCalls]) -> Result<Members, Memory>
        ensures { IfOk result (λ it. AreMembers ranks.now it) }
    {
        let mut comms = Sequence::new(alloc);
        let mut creations = Sequence::new(alloc);
        for own in ranks {
            push_declared(own, &mut comms, &mut creations)?;
        }
        Members::new(alloc, ranks, comms, creations)
    }

    /// The ranks that have to make a call of this kind on the name.
    pub fn of(&self, kind: Kind, name: &Name) -> &[u32]
        ensures { (ranks : List RankCalls) → AreMembers ranks self.now → result.now ≡ members kind ranks name.now }
    {
        match kind {
            Kind::Collective | Kind::Moving => self.of_comm(name),
            Kind::Free | Kind::Fence => match self.creations.first(name) {
                Some(creation) => self.of_comm(&creation.attributes.comm),
                None => &[],
            },
        }
    }

    /// The ranks of a communicator.
    fn of_comm(&self, comm: &Name) -> &[u32]
        ensures { (ranks : List RankCalls) → AreMembers ranks self.now → result.now ≡ members_of_comm ranks comm.now }
    {
        if comm.text() == "world" {
            return self.everyone.as_slice();
        }
        match self.comms.first(comm) {
            Some(declaration) => declaration.attributes.numbers(),
            None => &[],
        }
    }
}

/// Appends the communicators that the calls of a rank declare, and the windows that they create.
fn push_declared(
    own: &RankCalls,
    comms: &mut Sequence<Declaration<RankSet>>,
    creations: &mut Sequence<Declaration<WindowAttributes>>,
) -> Result<(), Memory>
    ensures comms { OnOk result (comms.new ≡ comms.old ++ declarations_of declared own.now.rank own.now.calls) }
    ensures creations { OnOk result (creations.new ≡ creations.old ++ declarations_of created own.now.rank own.now.calls) }
{
    let calls = own.calls();
    if !may_declare(calls) {
        return Ok(());
    }
    for i in 0..calls.len() {
        push_call(own.rank(), calls, i, comms, creations)?;
    }
    Ok(())
}

/// Whether a call may declare something: where not, none does. What calls do is looked at, and not each call.
fn may_declare(calls: &CallList) -> bool
    ensures { result ≡ false → (i : ℕ) (call : Call) → slice_get calls.now.calls i ≡ Some call → DeclaresNothing call.what }
{
    for number in 0..calls.whats() {
        if declares(calls.what(number)) {
            return true;
        }
    }
    false
}

/// Appends what the call at an index declares, if it declares anything, as few do: of the others only what they do is looked at.
fn push_call(
    rank: Rank,
    calls: &CallList,
    i: usize,
    comms: &mut Sequence<Declaration<RankSet>>,
    creations: &mut Sequence<Declaration<WindowAttributes>>,
) -> Result<(), Memory>
    requires { i < length calls.now.calls }
    ensures comms { OnOk result ((call : Call) → slice_get calls.now.calls i ≡ Some call → comms.new ≡ comms.old ++ cons_option (declaration_of declared rank call) []) }
    ensures creations { OnOk result ((call : Call) → slice_get calls.now.calls i ≡ Some call → creations.new ≡ creations.old ++ cons_option (declaration_of created rank call) []) }
{
    if !declares(calls.what(calls.what_number(i))) {
        return Ok(());
    }
    let call = calls.get(i);
    push_declaration(rank, call, comms)?;
    push_declaration(rank, call, creations)
}

/// Whether a call declares a communicator or creates a window.
fn declares(what: WhatRef<'_>) -> bool
    ensures { result ≡ false → DeclaresNothing (what_of what.entry) }
{
    match what {
        WhatRef::Frame(FrameCall::Comm { .. }) => true,
        WhatRef::Window(WindowCall::Create { .. }) => true,
        _ => false,
    }
}
