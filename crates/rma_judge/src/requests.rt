//! The requests of a log.
ghost use Rattle.std.specs.Prelude.{◌≡◌, ℕ, ◌+◌, ◌<◌, ◌^◌, List, None, Some, nat_lt, option_map, unwrap_or, is_some, IfOk, IfSome, OnOk, if◌then◌else◌};
ghost use Rattle.std.specs.Map.{lookup};
ghost use Rattle.std.specs.Option.{option_and_then};
ghost use Rattle.rma_judge.specs.Names.{is_same, of_name, number_of};
ghost use Rattle.rma_judge.specs.inside.Requests.{no_requests};
ghost use Rattle.rma_judge.specs.inside.Naming.{named};

use crate::names::Pending;
use indexmap::IndexMap;
use rma_base::{Memory, Name};
use std::alloc::Global;
use std::marker::Model;

/// The requests that are pending, and how many were made and completed.
#[derive(Drop)]
pub(crate) struct Requests {
    pending: IndexMap<Name, Pending>,
    made: u32,
    completed: u32,
}

impl Model for Requests {
    ghost use Rattle.rma_judge.specs.inside.Requests.{RequestTable};

    ghost Value = { RequestTable };

    ghost view = { λ own. record { pending = own.pending.entries; made = own.made; completed = own.completed } };
}

impl Requests {
    /// No request was made.
    pub(crate) fn new(alloc: Global) -> Requests
        ensures { result ≡ no_requests }
    {
        Requests {
            pending: IndexMap::new(alloc),
            made: 0,
            completed: 0,
        }
    }

    /// The request of this name that is pending.
    pub(crate) fn get(&self, name: &Name) -> Option<Pending>
        ensures { result ≡ lookup (is_same name.now) self.now.pending }
    {
        match self.pending.get(name) {
            Some(request) => Some(*request),
            None => None,
        }
    }

    /// Whether some request is pending.
    pub(crate) fn are_pending(&self) -> bool
        ensures { result ≡ nat_lt self.now.completed self.now.made }
    {
        self.completed < self.made
    }

    /// Completes the request of this name, and answers its number, if it is pending.
    pub(crate) fn complete(&mut self, name: &Name) -> Result<Option<u32>, Memory>
        ensures number { IfOk result (λ number. number ≡ option_and_then number_of (lookup (is_same name.now) self.old.pending)) }
        ensures fits { IfOk result (λ number. IfSome number (λ n. n + 1 < 2 ^ 32)) }
        ensures pending { OnOk result ((other : List ℕ) → lookup (is_same other) self.new.pending
            ≡ (if is_same name.now other then None else lookup (is_same other) self.old.pending)) }
        ensures made { OnOk result (self.new.made ≡ self.old.made) }
        ensures completed { OnOk result (self.new.completed ≡ self.old.completed + 1) }
    {
        match self.completed.checked_add(1) {
            Some(completed) => self.completed = completed,
            None => return Err(Memory),
        }
        match self.pending.swap_remove(name) {
            Some(request) => Ok(number_of(&request)),
            None => Ok(None),
        }
    }

    /// Makes the request that is asked for, if one is, and answers its number.
    pub(crate) fn make(&mut self, made: Option<(&Name, bool)>) -> Result<Option<u32>, Memory>
        ensures number { IfOk result (λ number. number ≡ option_map (λ receives. self.old.made) (named made.entry)) }
        ensures fits { IfOk result (λ number. IfSome number (λ n. n + 1 < 2 ^ 32)) }
        ensures pending { OnOk result ((name : List ℕ) → lookup (is_same name) self.new.pending
            ≡ unwrap_or (option_map (λ receives. Some (record { ordinal = self.old.made + 1; receives = receives })) (of_name name (named made.entry))) (lookup (is_same name) self.old.pending)) }
        ensures made { OnOk result (self.new.made ≡ self.old.made + (if is_some (named made.entry) then 1 else 0)) }
        ensures completed { OnOk result (self.new.completed ≡ self.old.completed) }
    {
        let Some((name, receives)) = made else {
            return Ok(None);
        };
        let number = self.made;
        let Some(ordinal) = number.checked_add(1) else {
            return Err(Memory);
        };
        match self
            .pending
            .insert(name.copy()?, Pending { ordinal, receives })
        {
            Ok(_) => {}
            Err(_) => return Err(Memory),
        }
        self.made = ordinal;
        Ok(Some(number))
    }
}

/// The number of a request: how many were made before it.
fn number_of(request: &Pending) -> Option<u32>
    ensures number { result ≡ number_of request.now }
    ensures fits { IfSome result (λ number. number + 1 < 2 ^ 32) }
{
    request.ordinal.checked_sub(1)
}
