//! What an event says of names and ranks.
ghost use Rattle.std.specs.Prelude.{◌≡◌, ℕ, List, Option, Some, true, false, is_some, option_map};
ghost use Rattle.std.specs.Option.{option_copied};
ghost use Rattle.rma_call.specs.Call.{what_of};
ghost use Rattle.rma_call.specs.declared.what.SyncCall.TheVariants as sync;
ghost use Rattle.rma_form.specs.declared.event.Event.{Event};
ghost use Rattle.rma_form.specs.declared.event.Event.TheVariants.{Call};
ghost use Rattle.rma_type.specs.Table.{Table};
ghost use Rattle.rma_judge.specs.Calls.{what_in};
ghost use Rattle.rma_judge.specs.inside.CallEvent.{request_of};
ghost use Rattle.rma_judge.specs.Naming.{attributes_of, created_state, no_attributes, on_comm, request_that, with_access, with_peer};
ghost use Rattle.rma_judge.specs.inside.Naming.{more_value, said_value, value_of, named, nothing};

use crate::names::WindowState;
use rma_base::{Name, Rank, RankSet};
use rma_call::{EpochCall, FrameCall, MessageCall, MovingCall, Received, WhatRef, WindowCall};

/// What an event says of names and ranks. The fields are those of `specs/Naming.antt`, but for the root of a collective and the
/// request that is waited for, which `Said` has by themselves.
#[derive(Clone, Copy)]
pub(crate) struct Naming<'a> {
    /// The communicator that has to be there.
    pub(crate) needed_comm: Option<&'a Name>,
    /// The window that has to be there.
    pub(crate) needed_window: Option<&'a Name>,
    /// The communicator that is declared, with its members.
    pub(crate) declared: Option<(&'a Name, &'a RankSet)>,
    /// The window that is created.
    pub(crate) created: Option<&'a Name>,
    /// The window of which something is made, and what.
    pub(crate) window: Option<(&'a Name, WindowState)>,
    /// The request that is made, and whether it is a receive.
    pub(crate) made: Option<(&'a Name, bool)>,
    /// A group of ranks that is named.
    pub(crate) group: Option<&'a RankSet>,
    /// A rank that is named by itself.
    pub(crate) rank: Option<Rank>,
    /// The memory of a window: its address, and its number of bytes.
    pub(crate) memory: Option<(u64, u64)>,
    /// The window to which memory is attached, or from which it is detached.
    pub(crate) attached: Option<&'a Name>,
}

/// What a message says of names and ranks that makes a request.
#[derive(Clone, Copy)]
pub(crate) struct NewRequest<'a> {
    /// The communicator that has to be there.
    pub(crate) comm: &'a Name,
    /// The rank to which the message goes, where it is known.
    pub(crate) peer: Option<Rank>,
    /// The request that is made.
    pub(crate) name: &'a Name,
    /// Whether it is a receive.
    pub(crate) receives: bool,
}

/// What a call says of names and ranks that says more than most.
#[derive(Clone, Copy)]
pub(crate) enum More<'a> {
    /// A communicator is declared, with its members.
    Declaring(&'a Name, &'a RankSet),
    /// What this call on a window says.
    OfWindow(&'a WindowCall),
    /// The window has to be there, and a log has to be that of each rank.
    WithGroup(&'a Name, &'a RankSet),
    /// The window has to be there, a log has to be that of the target, if there is one, and the request is made.
    WithRequest(&'a Name, Option<Rank>, &'a Name),
    /// A log has to be that of the rank, if there is one.
    From(Option<Rank>),
}

/// What a call says of names and ranks. Most say one thing or two, and local accesses none. It is small, since each call of a log
/// is judged by it.
pub(crate) enum Said<'a> {
    /// Nothing.
    Nothing,
    /// The communicator has to be there.
    OnComm(&'a Name),
    /// The window has to be there.
    OnWindow(&'a Name),
    /// The communicator has to be there, and a log has to be that of the rank.
    WithPeer(&'a Name, Rank),
    /// The window has to be there, and a log has to be that of the rank.
    WithTarget(&'a Name, Rank),
    /// The communicator has to be there, and a log has to be that of the root, which has to be a member.
    WithRoot(&'a Name, Rank),
    /// The communicator has to be there, a log has to be that of the peer, and the request is made.
    Making(NewRequest<'a>),
    /// The request has to be pending, and a receive where a message came from a rank, of which there has to be a log.
    Waiting(&'a Name, Option<Rank>),
    /// More than that.
    More(More<'a>),
}

impl<'a> Said<'a> {
    /// What a call says that does this, with the request that stands beside it.
    #[inline]
    pub(crate) fn of(call: WhatRef<'a>, request: Option<&'a Name>) -> Said<'a>
        ensures { (types : Table) (event : Event) → what_in types event ≡ Some (what_of call.entry) → request_of event ≡ option_copied request.entry → said_value result ≡ attributes_of event }
    {
        match call {
            WhatRef::Frame(call) => of_frame(call),
            WhatRef::Message(call) => of_message(call, request),
            WhatRef::Window(call) => Said::More(More::OfWindow(call)),
            WhatRef::Epoch(call) => of_epoch(call),
            WhatRef::Moving(call) => of_moving(call),
            WhatRef::Rma(call) => of_access(call.window(), call.target(), request),
            WhatRef::Local(_) => Said::Nothing,
        }
    }
}

fn of_frame(call: &FrameCall) -> Said<'_>
    ensures { (request : Option (List ℕ)) → said_value result ≡ attributes_of (Call (sync.Frame call.now) request) }
{
    match call {
        FrameCall::Comm { comm, ranks } => Said::More(More::Declaring(comm, ranks)),
        FrameCall::Barrier { comm } => Said::OnComm(comm),
    }
}

fn of_message<'a>(call: &'a MessageCall, request: Option<&'a Name>) -> Said<'a>
    ensures { said_value result ≡ attributes_of (Call (sync.Message call.now) (option_copied request.entry)) }
{
    match call {
        MessageCall::Send { to, comm, .. } => Said::WithPeer(comm, *to),
        MessageCall::Recv { from, comm, .. } => Said::WithPeer(comm, *from),
        MessageCall::Isend { to, comm, .. } => of_isend(comm, *to, request),
        MessageCall::Irecv { comm } => of_irecv(comm, request),
        MessageCall::Wait { received } => of_wait(*received, request),
    }
}

fn of_isend<'a>(comm: &'a Name, to: Rank, request: Option<&'a Name>) -> Said<'a>
    ensures { said_value result ≡ record (with_peer comm.now to.0) { made = request_that false (option_copied request.entry) } }
{
    match request {
        Some(name) => Said::Making(NewRequest {
            comm,
            peer: Some(to),
            name,
            receives: false,
        }),
        None => Said::WithPeer(comm, to),
    }
}

fn of_irecv<'a>(comm: &'a Name, request: Option<&'a Name>) -> Said<'a>
    ensures { said_value result ≡ record (on_comm comm.now) { made = request_that true (option_copied request.entry) } }
{
    match request {
        Some(name) => Said::Making(NewRequest {
            comm,
            peer: None,
            name,
            receives: true,
        }),
        None => Said::OnComm(comm),
    }
}

fn of_wait(received: Option<Received>, request: Option<&Name>) -> Said<'_>
    ensures { said_value result ≡ record no_attributes {
      awaited = request_that (is_some received) (option_copied request.entry);
      rank = option_map (λ it. it.from.0) received;
    } }
{
    let from = match received {
        Some(received) => Some(received.from),
        None => None,
    };
    match request {
        Some(request) => Said::Waiting(request, from),
        None => Said::More(More::From(from)),
    }
}

fn of_epoch(call: &EpochCall) -> Said<'_>
    ensures { (request : Option (List ℕ)) → said_value result ≡ attributes_of (Call (sync.Epoch call.now) request) }
{
    match call {
        EpochCall::Fence { window, .. } => Said::OnWindow(window),
        EpochCall::Post {
            window,
            origins,
            ..
        } => Said::More(More::WithGroup(window, origins)),
        EpochCall::Start {
            window,
            targets,
            ..
        } => Said::More(More::WithGroup(window, targets)),
        EpochCall::Complete { window } => Said::OnWindow(window),
        EpochCall::Expwait { window } => Said::OnWindow(window),
        EpochCall::Lock { window, target, .. } => Said::WithTarget(window, *target),
        EpochCall::Unlock { window, target } => Said::WithTarget(window, *target),
        EpochCall::LockAll { window, .. } => Said::OnWindow(window),
        EpochCall::UnlockAll { window } => Said::OnWindow(window),
        EpochCall::Flush { window, target } => Said::WithTarget(window, *target),
        EpochCall::FlushAll { window } => Said::OnWindow(window),
        EpochCall::FlushLocal { window, target } => Said::WithTarget(window, *target),
        EpochCall::FlushLocalAll { window } => Said::OnWindow(window),
        EpochCall::Sync { window } => Said::OnWindow(window),
    }
}

fn of_moving(call: &MovingCall) -> Said<'_>
    ensures { (request : Option (List ℕ)) → said_value result ≡ attributes_of (Call (sync.Moving call.now) request) }
{
    match call {
        MovingCall::Bcast { root, comm, .. } => Said::WithRoot(comm, *root),
        MovingCall::Scatter { root, comm, .. } => Said::WithRoot(comm, *root),
        MovingCall::Gather { root, comm, .. } => Said::WithRoot(comm, *root),
        MovingCall::Reduce { root, comm, .. } => Said::WithRoot(comm, *root),
        MovingCall::Allreduce { comm, .. } => Said::OnComm(comm),
        MovingCall::Allgather { comm, .. } => Said::OnComm(comm),
        MovingCall::Alltoall { comm, .. } => Said::OnComm(comm),
    }
}

impl<'a> More<'a> {
    /// The same, field by field.
    pub(crate) fn naming(self) -> Naming<'a>
        ensures { value_of result ≡ more_value self.entry }
    {
        match self {
            More::Declaring(comm, ranks) => Naming {
                declared: Some((comm, ranks)),
                group: Some(ranks),
                ..nothing()
            },
            More::OfWindow(call) => with_window(call),
            More::WithGroup(window, ranks) => Naming {
                group: Some(ranks),
                ..on_window(window)
            },
            More::WithRequest(window, target, request) => {
                with_access(window, target, Some(request))
            }
            More::From(rank) => Naming { rank, ..nothing() },
        }
    }
}

/// What a call on a window says.
fn with_window(call: &WindowCall) -> Naming<'_>
    ensures { (request : Option (List ℕ)) → value_of result ≡ attributes_of (Call (sync.Window call.now) request) }
{
    match call {
        WindowCall::Create {
            window,
            comm,
            base,
            size,
            dynamic,
            ..
        } => Naming {
            created: Some(window),
            window: Some((window, created_state(*dynamic))),
            memory: Some((*base, *size)),
            ..on_comm(comm)
        },
        WindowCall::Free { window } => Naming {
            window: Some((window, WindowState::Freed)),
            ..on_window(window)
        },
        WindowCall::Attach {
            window,
            address,
            size,
        } => Naming {
            memory: Some((*address, *size)),
            attached: Some(window),
            ..on_window(window)
        },
        WindowCall::Detach { window, .. } => Naming {
            attached: Some(window),
            ..on_window(window)
        },
    }
}

/// Nothing is said of names and ranks.
fn nothing<'a>() -> Naming<'a>
    ensures { result ≡ nothing }
{
    Naming {
        needed_comm: None,
        needed_window: None,
        declared: None,
        created: None,
        window: None,
        made: None,
        group: None,
        rank: None,
        memory: None,
        attached: None,
    }
}

/// A call on a communicator.
fn on_comm(comm: &Name) -> Naming<'_>
    ensures { result ≡ record nothing { needed_comm = Some comm.entry } }
{
    Naming {
        needed_comm: Some(comm),
        ..nothing()
    }
}

/// A call on a window.
fn on_window(window: &Name) -> Naming<'_>
    ensures { result ≡ record nothing { needed_window = Some window.entry } }
{
    Naming {
        needed_window: Some(window),
        ..nothing()
    }
}

/// A call that accesses the part of a target, if it has one.
pub(crate) fn with_access<'a>(
    window: &'a Name,
    target: Option<Rank>,
    request: Option<&'a Name>,
) -> Naming<'a>
    ensures { value_of result ≡ with_access window.now target (option_copied request.entry) }
{
    Naming {
        rank: target,
        made: request_that(false, request),
        ..on_window(window)
    }
}

/// What a call says that accesses the part of a target, if it has one.
fn of_access<'a>(window: &'a Name, target: Option<Rank>, request: Option<&'a Name>) -> Said<'a>
    ensures { said_value result ≡ with_access window.now target (option_copied request.entry) }
{
    match (target, request) {
        (None, None) => Said::OnWindow(window),
        (Some(target), None) => Said::WithTarget(window, target),
        (_, Some(request)) => Said::More(More::WithRequest(window, target, request)),
    }
}

/// How a window is when it is created.
fn created_state(dynamic: bool) -> WindowState
    ensures { result ≡ created_state dynamic }
{
    if dynamic {
        WindowState::Dynamic
    } else {
        WindowState::Fixed
    }
}

/// A request, where it has a name, with a word on it.
fn request_that(word: bool, request: Option<&Name>) -> Option<(&Name, bool)>
    ensures { named result ≡ request_that word (option_copied request.entry) }
{
    match request {
        Some(name) => Some((name, word)),
        None => None,
    }
}
