//! Lists of lock epochs.
ghost use Rattle.std.specs.Prelude.{◌≡◌, ◌<◌, ◌+◌, ◌++◌, ◌∷◌, ◌↔◌, [], length, slice_get, IfOk, IfSome, OnOk, ℕ, MatchOption};
ghost use Rattle.rma_cover.specs.Cover.{AreWith, IsLast, StayThere};

use rma_base::Memory;
use rma_rules::LockKey;
use std::alloc::Global;
use std::marker::Model;

/// Lists of lock epochs, by their numbers. All keys stand in one table.
#[derive(Debug, Drop)]
pub struct KeyLists {
    /// The keys of all lists, one list behind the other.
    keys: Vec<LockKey>,
    /// Where each list stands among them.
    ranges: Vec<KeyRange>,
}

/// Where a list stands.
#[derive(Clone, Copy, Debug)]
struct KeyRange {
    /// Its first key.
    start: u32,
    /// Behind its last.
    end: u32,
}

impl Model for KeyLists {
    ghost use Rattle.std.specs.Prelude.{◌≤◌, ◌^◌, List, All, length};
    ghost use Rattle.rma_rules.specs.declared.lock.LockKey.{LockKey};

    ghost Value = { List (List LockKey) };

    ghost use Rattle.rma_cover.specs.inside.Lists.{lists_in, IsRangeIn};

    ghost view = { λ own. lists_in own.keys.items own.ranges.items };

    ghost invariant = { λ own. record { ranges_are_in : All (IsRangeIn own.keys.items) own.ranges.items; are_numbered : length own.ranges.items ≤ 2 ^ 32 } };
}

impl KeyLists {
    /// No list.
    pub fn new(alloc: Global) -> KeyLists
        ensures { result ≡ [] }
    {
        KeyLists {
            keys: Vec::new(alloc),
            ranges: Vec::new(alloc),
        }
    }

    /// Adds a list behind the others, and answers its number.
    ///
    /// # Errors
    ///
    /// `Memory` also where the table is full.
    pub fn add(&mut self, list: &[LockKey]) -> Result<u32, Memory>
        ensures number { IfOk result (λ number. number ≡ length self.old) }
        ensures list { OnOk result (self.new ≡ self.old ++ list.now ∷ []) }
    {
        let number = u32::try_from(self.ranges.len()).map_err(|_| Memory)?;
        let start = u32::try_from(self.keys.len()).map_err(|_| Memory)?;
        self.keys.extend_from_slice(list)?;
        let end = u32::try_from(self.keys.len()).map_err(|_| Memory)?;
        self.ranges.push(KeyRange { start, end })?;
        Ok(number)
    }

    /// The number of the last list, if there is one.
    pub fn last(&self) -> Option<u32>
        ensures none { length self.now ≡ 0 ↔ result ≡ None }
        ensures last { IfSome result (λ number. number + 1 ≡ length self.now) }
    {
        u32::try_from(self.ranges.len().checked_sub(1)?).ok()
    }

    /// The list of a number.
    pub fn list(&self, number: u32) -> &[LockKey]
        requires { number < length self.now }
        ensures { slice_get self.now number ≡ Some result.now }
    {
        let range = self.ranges[number as usize];
        &self.keys[range.start as usize..range.end as usize]
    }

    /// The number of a list: the last one is taken again where it is the same, and else it comes behind the others.
    ///
    /// # Errors
    ///
    /// `Memory` also where the table is full.
    pub fn number_of(&mut self, list: &[LockKey]) -> Result<u32, Memory>
        ensures list { IfOk result (λ number. slice_get self.new number ≡ Some list.now) }
        ensures others { OnOk result (StayThere self.old self.new) }
        ensures all { OnOk result (AreWith self.old list.now self.new) }
    {
        match self.number_of_last(list) {
            Some(last) => Ok(last),
            None => self.add(list),
        }
    }

    /// The number of the last list, where it is this one.
    fn number_of_last(&self, list: &[LockKey]) -> Option<u32>
        ensures { MatchOption result ((last : ℕ) → IsLast self.now last list.now → ⊥) (λ last. IsLast self.now last list.now) }
    {
        let last = self.last()?;
        let is_same = self.list(last) == list;
        is_same.then_some(last)
    }
}
