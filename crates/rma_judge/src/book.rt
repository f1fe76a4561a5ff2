//! The book of one rank: it judges each event with those before it.
ghost use Rattle.std.specs.Prelude.{◌≡◌, ℕ, ◌+◌, ◌<◌, ◌^◌, nat_lt, List, [], ◌∷◌, Some, None, true, false, not, ◌==◌, ◌&&◌, ◌||◌, Option, is_some, option_map, IfOk, IfSome, OnOk, if◌then◌else◌};
ghost use Rattle.std.specs.List.{list_any};
ghost use Rattle.std.specs.Map.{lookup};
ghost use Rattle.std.specs.Option.{option_copied, option_map_or, option_or};
ghost use Rattle.rma_base.specs.RankSet.{has_number};
ghost use Rattle.rma_base.specs.declared.version.Version.{Version};
ghost use Rattle.rma_call.specs.Call.{what_of};
ghost use Rattle.rma_form.specs.declared.event.Event.{Event};
ghost use Rattle.rma_form.specs.declared.event.Event.TheVariants.{Header, End};
ghost use Rattle.rma_judge.specs.Naming.{attributes_of, is_end};
ghost use Rattle.rma_judge.specs.Types.{is_datatype};
ghost use Rattle.rma_judge.specs.Names.{is_same, of_name, world, has_comm, had_window, pending, request_number};
ghost use Rattle.rma_judge.specs.Judging.{first_that_holds, name_reason, use_reason, lacks_comm, lacks_window, is_far, leaves_out, leaves_space, attaches_wrongly};
ghost use Rattle.rma_judge.specs.inside.BookState.{Represents, IsJudged, IsTaken, reason_in, number_in};
ghost use Rattle.rma_judge.specs.inside.CallEvent.{IsCall, IsCallOf};
ghost use Rattle.rma_judge.specs.inside.Naming.{more_value, value_of};

mod access;
mod datatype;
mod lookup;
mod request;

use crate::names::WindowState;
use crate::naming::{More, Naming, Said};
use crate::requests::Requests;
pub use access::JudgedAccess;
use indexmap::IndexMap;
use lookup::is_world;
use rma_base::limits::SPACE;
use rma_base::{FormReason, Memory, Name, Rank, RankSet};
use rma_call::WhatRef;
use rma_layout::LayoutTable;
use rma_type::TypeTable;
use std::alloc::Global;
use std::cell::Cell;
use std::marker::Model;

/// What a book says of a call.
#[derive(Clone, Copy, Debug, PartialEq, Eq)]
pub enum Judged {
    /// It is bad.
    Bad(FormReason),
    /// It is good.
    Good {
        /// The number of the request that it makes or completes.
        request: Option<u32>,
    },
}

/// The book of one rank. It keeps the names that are in use, and represents the events that it took.
#[derive(Drop)]
pub struct Book {
    rank: Rank,
    logs: u32,
    /// An event was taken.
    begun: bool,
    /// The end was taken.
    ended: bool,
    /// The communicators that were declared, with their members.
    comms: IndexMap<Name, RankSet>,
    /// Where among them the communicator stands of which a call spoke last.
    last_comm: Cell<usize>,
    /// The windows that were created, with what became of them.
    windows: IndexMap<Name, WindowState>,
    /// Where among them the window stands of which a call spoke last.
    last_window: Cell<usize>,
    requests: Requests,
    /// The datatypes, with the layouts that came last.
    types: LayoutTable,
}

impl Model for Book {
    ghost use Rattle.rma_judge.specs.inside.BookState.{BookState};

    ghost Value = { BookState };

    ghost view = { λ book. record {
      rank = book.rank.0;
      logs = book.logs;
      begun = book.begun;
      ended = book.ended;
      comms = book.comms.entries;
      windows = book.windows.entries;
      requests = book.requests;
      types = book.types;
    } };
}

impl Book {
    /// The book of a rank among so many logs, which took no event yet.
    pub fn new(alloc: Global, rank: Rank, logs: u32) -> Result<Book, Memory>
        ensures rank { IfOk result (λ book. book.rank ≡ rank.0) }
        ensures logs { IfOk result (λ book. book.logs ≡ logs) }
        ensures empty { IfOk result (λ book. Represents book []) }
    {
        let types = LayoutTable::new(TypeTable::new(alloc)?)?;
        Ok(Book {
            rank,
            logs,
            begun: false,
            ended: false,
            comms: IndexMap::new(alloc),
            last_comm: Cell::new(0),
            windows: IndexMap::new(alloc),
            last_window: Cell::new(0),
            requests: Requests::new(alloc),
            types,
        })
    }

    /// The rank whose log it is.
    pub fn rank(&self) -> Rank
        ensures { result.0 ≡ self.now.rank }
    {
        self.rank
    }

    /// Where the book takes its memory.
    pub fn allocator(&self) -> Global {
        self.types.types().allocator()
    }

    /// Judges a header, and takes it where it is good. It answers why it is bad, if it is.
    pub fn begin(&mut self, rank: Rank, size: u32) -> Option<FormReason>
        ensures { (version : Version) → IsJudged self.old self.new (Header version rank size) result }
    {
        match self.header_reason(rank, size) {
            Some(reason) => Some(reason),
            None => {
                self.begun = true;
                None
            }
        }
    }

    /// Judges the end of the log, and takes it where it is good. It answers why it is bad, if it is.
    pub fn end(&mut self) -> Option<FormReason>
        ensures { IsJudged self.old self.new End result }
    {
        match self.end_reason() {
            Some(reason) => Some(reason),
            None => {
                self.begun = true;
                self.ended = true;
                None
            }
        }
    }

    /// Judges a call that does this with the request that stands beside it, and takes it where it is good. The datatypes of an
    /// access must be known to be good.
    ///
    /// # Errors
    ///
    /// `Memory` where memory ran out: the book no longer represents the events that it took.
    pub fn call(&mut self, what: WhatRef<'_>, request: Option<&Name>) -> Result<Judged, Memory>
        ensures judged { IfOk result (λ judged. (event : Event) → IsCallOf self.old.types (what_of what.entry) (option_copied request.entry) event → IsJudged self.old self.new event (reason_in judged)) }
        ensures number { IfOk result (λ judged. (event : Event) → IsCallOf self.old.types (what_of what.entry) (option_copied request.entry) event → reason_in judged ≡ None → (events : List Event) → Represents self.old events
            → number_in judged ≡ request_number events (attributes_of event)) }
        ensures fits { IfOk result (λ judged. IfSome (number_in judged) (λ number. number + 1 < 2 ^ 32)) }
    {
        match Said::of(what, request) {
            Said::Nothing => Ok(self.judged(false, FormReason::UnknownComm)),
            Said::OnComm(comm) => {
                let lacks = !self.has_comm(comm);
                Ok(self.judged(lacks, FormReason::UnknownComm))
            }
            Said::OnWindow(window) => {
                let lacks = !self.has_window(window);
                Ok(self.judged(lacks, FormReason::UnknownWindow))
            }
            Said::WithPeer(comm, rank) => {
                let lacks = !self.has_comm(comm);
                Ok(self.judged_with(lacks, FormReason::UnknownComm, rank))
            }
            Said::WithTarget(window, rank) => {
                let lacks = !self.has_window(window);
                Ok(self.judged_with(lacks, FormReason::UnknownWindow, rank))
            }
            Said::WithRoot(comm, root) => Ok(self.judged_for(self.root_reason(comm, root))),
            Said::Making(new) => self.judge_making(&new),
            Said::Waiting(request, from) => self.judge_waiting(request, from),
            Said::More(more) => self.judge_more(more),
        }
    }

    // Judges a call that says no more than one name, which it lacks or not: there is nothing to note of it.
    #[inline]
    fn judged(&self, lacks: bool, reason: FormReason) -> Judged
        ensures reason { reason_in result ≡ option_or
            (if not self.now.begun then Some FormReason.BadHeader else (if self.now.ended then Some FormReason.AfterEnd else None))
            (if lacks then Some reason else None) }
        ensures number { number_in result ≡ None }
    {
        match self.later_reason() {
            Some(reason) => Judged::Bad(reason),
            None if lacks => Judged::Bad(reason),
            None => Judged::Good { request: None },
        }
    }

    // Judges a call that says no more than one name, which it lacks or not, and one rank: there is nothing to note of it.
    #[inline]
    fn judged_with(&self, lacks: bool, reason: FormReason, rank: Rank) -> Judged
        ensures reason { reason_in result ≡ option_or
            (if not self.now.begun then Some FormReason.BadHeader else (if self.now.ended then Some FormReason.AfterEnd else None))
            (if lacks then Some reason else (if is_far self.now.logs rank.0 then Some FormReason.RankTooLarge else None)) }
        ensures number { number_in result ≡ None }
    {
        match self.later_reason() {
            Some(reason) => Judged::Bad(reason),
            None if lacks => Judged::Bad(reason),
            None if rank.0 >= self.logs => Judged::Bad(FormReason::RankTooLarge),
            None => Judged::Good { request: None },
        }
    }

    // Judges a call of which there is nothing to note, with the reason that what it names gives, if it gives one.
    #[inline]
    fn judged_for(&self, found: Option<FormReason>) -> Judged
        ensures reason { reason_in result ≡ option_or
            (if not self.now.begun then Some FormReason.BadHeader else (if self.now.ended then Some FormReason.AfterEnd else None))
            found }
        ensures number { number_in result ≡ None }
    {
        match self.later_reason().or(found) {
            Some(reason) => Judged::Bad(reason),
            None => Judged::Good { request: None },
        }
    }

    // Why a collective with this root is bad, if it is, where a call may stand.
    fn root_reason(&self, comm: &Name, root: Rank) -> Option<FormReason>
        ensures { result ≡ (if not (is_same world comm.now || is_some (lookup (is_same comm.now) self.now.comms)) then Some FormReason.UnknownComm
            else (if is_far self.now.logs root.0 then Some FormReason.RankTooLarge
            else (if not (option_map_or (has_number root.0) (lookup (is_same comm.now) self.now.comms) (nat_lt root.0 self.now.logs)) then Some FormReason.RootNotMember else None))) }
    {
        match self.members(comm) {
            None if !is_world(comm) => Some(FormReason::UnknownComm),
            _ if root.0 >= self.logs => Some(FormReason::RankTooLarge),
            Some(ranks) if !ranks.has(root) => Some(FormReason::RootNotMember),
            _ => None,
        }
    }

    // Judges a call that says more than most, and takes it where it is good. It stands apart, since few do.
    #[inline(never)]
    fn judge_more(&mut self, more: More<'_>) -> Result<Judged, Memory>
        ensures judged { IfOk result (λ judged. (event : Event) → more_value more.entry ≡ attributes_of event → IsCall self.old.types event → IsJudged self.old self.new event (reason_in judged)) }
        ensures number { IfOk result (λ judged. reason_in judged ≡ None → (events : List Event) → Represents self.old events
            → number_in judged ≡ request_number events (more_value more.entry)) }
        ensures fits { IfOk result (λ judged. IfSome (number_in judged) (λ number. number + 1 < 2 ^ 32)) }
    {
        self.judge(&more.naming())
    }

    // Judges a call, and takes it where it is good.
    fn judge(&mut self, naming: &Naming<'_>) -> Result<Judged, Memory>
        ensures judged { IfOk result (λ judged. (event : Event) → value_of naming.now ≡ attributes_of event → IsCall self.old.types event → IsJudged self.old self.new event (reason_in judged)) }
        ensures number { IfOk result (λ judged. reason_in judged ≡ None → (events : List Event) → Represents self.old events
            → number_in judged ≡ request_number events (value_of naming.now)) }
        ensures fits { IfOk result (λ judged. IfSome (number_in judged) (λ number. number + 1 < 2 ^ 32)) }
    {
        match self.reason(naming, false) {
            Some(reason) => Ok(Judged::Bad(reason)),
            None => {
                let request = self.note(naming)?;
                Ok(Judged::Good { request })
            }
        }
    }

    // Why a header is bad now, if it is.
    fn header_reason(&self, rank: Rank, size: u32) -> Option<FormReason>
        ensures { result ≡ (if self.now.begun then Some FormReason.BadHeader else (if rank.0 == self.now.rank && size == self.now.logs then None else Some FormReason.WrongHeader)) }
    {
        if self.begun {
            Some(FormReason::BadHeader)
        } else if rank == self.rank && size == self.logs {
            None
        } else {
            Some(FormReason::WrongHeader)
        }
    }

    // Why an event that is no header is bad where it stands, if it is.
    fn later_reason(&self) -> Option<FormReason>
        ensures { result ≡ (if not self.now.begun then Some FormReason.BadHeader else (if self.now.ended then Some FormReason.AfterEnd else None)) }
    {
        if !self.begun {
            Some(FormReason::BadHeader)
        } else if self.ended {
            Some(FormReason::AfterEnd)
        } else {
            None
        }
    }

    // Why the end of the log is bad now, if it is.
    fn end_reason(&self) -> Option<FormReason>
        ensures { result ≡ option_or (if not self.now.begun then Some FormReason.BadHeader else (if self.now.ended then Some FormReason.AfterEnd else None))
            (if nat_lt self.now.requests.completed self.now.requests.made then Some FormReason.RequestPending else None) }
    {
        match self.later_reason() {
            Some(reason) => Some(reason),
            None => {
                if self.requests.are_pending() {
                    Some(FormReason::RequestPending)
                } else {
                    None
                }
            }
        }
    }

    // Why a call is bad now for what it says of names and ranks, if it is; whether the name of a datatype is not live is known.
    fn reason(&self, naming: &Naming<'_>, lacks_type: bool) -> Option<FormReason>
        ensures { (events : List Event) → Represents self.now events → result ≡ option_or
            (if not self.now.begun then Some FormReason.BadHeader else (if self.now.ended then Some FormReason.AfterEnd else None))
            (option_or (name_reason events (value_of naming.now) lacks_type) (use_reason self.now.rank self.now.logs events (value_of naming.now) false)) }
    {
        match self.later_reason() {
            Some(reason) => Some(reason),
            None => match self.name_reason(naming, lacks_type) {
                Some(reason) => Some(reason),
                None => self.use_reason(naming),
            },
        }
    }

    // Whether what a call names is there, and the names that it gives are free.
    fn name_reason(&self, naming: &Naming<'_>, lacks_type: bool) -> Option<FormReason>
        ensures { (events : List Event) → Represents self.now events → result ≡ name_reason events (value_of naming.now) lacks_type }
    {
        first_name_reason(
            self.lacks_comm(naming),
            self.lacks_window(naming),
            lacks_type,
            self.declares_used(naming) | (self.creates_used(naming) | self.makes_used(naming)),
        )
    }

    // Whether a call does what it may.
    fn use_reason(&self, naming: &Naming<'_>) -> Option<FormReason>
        ensures { (events : List Event) → Represents self.now events → result ≡ use_reason self.now.rank self.now.logs events (value_of naming.now) false }
    {
        first_use_reason(
            self.has_far_member(naming) | self.is_far(naming.rank),
            self.leaves_out(naming),
            leaves_space(naming),
            self.attaches_wrongly(naming),
        )
    }

    fn lacks_comm(&self, naming: &Naming<'_>) -> bool
        ensures { (events : List Event) → Represents self.now events → result ≡ lacks_comm events (value_of naming.now) }
    {
        match naming.needed_comm {
            Some(comm) => !self.has_comm(comm),
            None => false,
        }
    }

    fn lacks_window(&self, naming: &Naming<'_>) -> bool
        ensures { (events : List Event) → Represents self.now events → result ≡ lacks_window events (value_of naming.now) }
    {
        match naming.needed_window {
            Some(window) => !self.has_window(window),
            None => false,
        }
    }

    fn declares_used(&self, naming: &Naming<'_>) -> bool
        ensures { (events : List Event) → Represents self.now events → result ≡ option_map_or (λ declared. has_comm events declared.0) (value_of naming.now).declared false }
    {
        match naming.declared {
            Some((comm, _)) => self.has_comm(comm),
            None => false,
        }
    }

    fn creates_used(&self, naming: &Naming<'_>) -> bool
        ensures { (events : List Event) → Represents self.now events → result ≡ option_map_or (had_window events) (value_of naming.now).created false }
    {
        match naming.created {
            Some(window) => self.windows.contains_key(window),
            None => false,
        }
    }

    fn makes_used(&self, naming: &Naming<'_>) -> bool
        ensures { (events : List Event) → Represents self.now events → result ≡ option_map_or (λ made. is_some (pending events made.0)) (value_of naming.now).made false }
    {
        match naming.made {
            Some((request, _)) => self.requests.get(request).is_some(),
            None => false,
        }
    }

    fn has_far_member(&self, naming: &Naming<'_>) -> bool
        ensures { result ≡ option_map_or (list_any (is_far self.now.logs)) (value_of naming.now).group false }
    {
        match naming.group {
            Some(ranks) => has_far_rank(ranks, self.logs),
            None => false,
        }
    }

    // Whether there is a rank that is that of no log.
    fn is_far(&self, rank: Option<Rank>) -> bool
        ensures { result ≡ option_map_or (is_far self.now.logs) (option_map (λ rank. rank.0) rank) false }
    {
        match rank {
            Some(rank) => rank.0 >= self.logs,
            None => false,
        }
    }

    fn leaves_out(&self, naming: &Naming<'_>) -> bool
        ensures { result ≡ leaves_out self.now.rank (value_of naming.now) }
    {
        match naming.declared {
            Some((_, ranks)) => !ranks.has(self.rank),
            None => false,
        }
    }

    fn attaches_wrongly(&self, naming: &Naming<'_>) -> bool
        ensures { (events : List Event) → Represents self.now events → result ≡ attaches_wrongly events (value_of naming.now) }
    {
        match naming.attached {
            Some(window) => self.is_fixed(window),
            None => false,
        }
    }

    // Notes what a call does to the names, and answers the number of its request.
    fn note(&mut self, naming: &Naming<'_>) -> Result<Option<u32>, Memory>
        ensures taken { OnOk result ((event : Event) → value_of naming.now ≡ attributes_of event → is_end event ≡ false → is_datatype event ≡ false → IsTaken self.old self.new event) }
        ensures number { IfOk result (λ number. (events : List Event) → Represents self.old events → number ≡ request_number events (value_of naming.now)) }
        ensures fits { IfOk result (λ number. IfSome number (λ n. n + 1 < 2 ^ 32)) }
    {
        self.begun = true;
        self.declare(naming)?;
        self.mark(naming)?;
        self.requests.make(naming.made)
    }

    // The communicator that is declared is there.
    fn declare(&mut self, naming: &Naming<'_>) -> Result<(), Memory>
        ensures comms { OnOk result ((name : List ℕ) → lookup (is_same name) self.new.comms ≡ option_or (of_name name (value_of naming.now).declared) (lookup (is_same name) self.old.comms)) }
        ensures others { OnOk result (self.new ≡ record self.old { comms = self.new.comms }) }
    {
        let Some((comm, ranks)) = naming.declared else {
            return Ok(());
        };
        match self.comms.insert(comm.copy()?, ranks.copy()?) {
            Ok(_) => Ok(()),
            Err(_) => Err(Memory),
        }
    }

    // The window becomes what is made of it.
    fn mark(&mut self, naming: &Naming<'_>) -> Result<(), Memory>
        ensures windows { OnOk result ((name : List ℕ) → lookup (is_same name) self.new.windows ≡ option_or (of_name name (value_of naming.now).window) (lookup (is_same name) self.old.windows)) }
        ensures others { OnOk result (self.new ≡ record self.old { windows = self.new.windows }) }
    {
        let Some((window, state)) = naming.window else {
            return Ok(());
        };
        match self.windows.insert(window.copy()?, state) {
            Ok(_) => Ok(()),
            Err(_) => Err(Memory),
        }
    }
}

/// The first of the reasons among names that holds.
fn first_name_reason(
    lacks_comm: bool,
    lacks_window: bool,
    lacks_type: bool,
    used: bool,
) -> Option<FormReason>
    ensures { result ≡ first_that_holds (
        (FormReason.UnknownComm, lacks_comm) ∷ (FormReason.UnknownWindow, lacks_window) ∷ (FormReason.UnknownType, lacks_type) ∷ (FormReason.NameInUse, used) ∷ []) }
{
    if lacks_comm {
        Some(FormReason::UnknownComm)
    } else if lacks_window {
        Some(FormReason::UnknownWindow)
    } else if lacks_type {
        Some(FormReason::UnknownType)
    } else if used {
        Some(FormReason::NameInUse)
    } else {
        None
    }
}

/// The first of the reasons in what a call does that holds.
fn first_use_reason(far: bool, left_out: bool, beyond: bool, fixed: bool) -> Option<FormReason>
    ensures { result ≡ first_that_holds (
        (FormReason.RankTooLarge, far) ∷ (FormReason.NotInGroup, left_out) ∷ (FormReason.OutOfSpace, beyond) ∷ (FormReason.NotDynamic, fixed) ∷ []) }
{
    if far {
        Some(FormReason::RankTooLarge)
    } else if left_out {
        Some(FormReason::NotInGroup)
    } else if beyond {
        Some(FormReason::OutOfSpace)
    } else if fixed {
        Some(FormReason::NotDynamic)
    } else {
        None
    }
}

/// Whether a rank is that of none of so many logs.
fn has_far_rank(ranks: &RankSet, logs: u32) -> bool
    ensures { result ≡ list_any (is_far logs) ranks.now }
{
    ranks.numbers().iter().any(|rank| *rank >= logs)
}

/// Whether memory does not end in the space of addresses.
fn leaves_space(naming: &Naming<'_>) -> bool
    ensures { result ≡ leaves_space (value_of naming.now) }
{
    match naming.memory {
        Some((address, size)) => size > SPACE || address > SPACE - size,
        None => false,
    }
}
