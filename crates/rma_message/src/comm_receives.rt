//! The receives of one rank on one communicator.
ghost use Rattle.std.specs.Prelude.{◌≡◌, ◌+◌, ◌<◌, ◌++◌, ◌∷◌, [], List, Option, None, Some, length, IfOk, OnOk, option_copied, set, if◌then◌else◌};
ghost use Rattle.rma_message.specs.declared.key.Key.{Key};
ghost use Rattle.rma_message.specs.Key.{same_key};
ghost use Rattle.rma_message.specs.inside.Live.{count_of, AreNumbered, ArePlaced, IsOnComm, key_at, number_at};

use crate::key::Key;
use indexmap::IndexMap;
use rma_base::{Memory, Sequence};
use std::alloc::Global;

/// The receives of one rank on one communicator. A receive is placed where it, and each that is posted before it, is complete.
#[derive(Drop)]
pub(crate) struct CommReceives {
    /// What each matches by, in the order in which they are posted, where it is complete.
    keys: Vec<Option<Key>>,
    /// How many of the same key are posted before each, of those that are placed.
    numbers: Sequence<u32>,
    /// How many of each key are placed.
    counts: IndexMap<Key, u32>,
}

impl CommReceives {
    /// None.
    pub(crate) fn new(alloc: Global) -> CommReceives
        ensures { IsOnComm [] (Some result) }
    {
        CommReceives {
            keys: Vec::new(alloc),
            numbers: Sequence::new(alloc),
            counts: IndexMap::new(alloc),
        }
    }

    /// Takes the next receive, with what it matches by where it is complete, and answers how many are posted before it.
    pub(crate) fn post(&mut self, key: Option<Key>) -> Result<usize, Memory>
        ensures index { IfOk result (λ index. (keys : List (Option Key)) → IsOnComm keys (Some self.old) → index ≡ length keys) }
        ensures posted { OnOk result ((keys : List (Option Key)) → IsOnComm keys (Some self.old) → IsOnComm (keys ++ key ∷ []) (Some self.new)) }
    {
        let index = self.keys.len();
        self.keys.push(key)?;
        place(&self.keys, &mut self.numbers, &mut self.counts)?;
        Ok(index)
    }

    /// Completes the receive at an index, which is not complete yet.
    pub(crate) fn complete(&mut self, index: usize, key: Key) -> Result<(), Memory>
        ensures { OnOk result ((keys : List (Option Key)) → IsOnComm keys (Some self.old) → index < length keys → key_at keys index ≡ None
            → IsOnComm (set keys index (Some key)) (Some self.new)) }
    {
        put(&mut self.keys, index, key);
        place(&self.keys, &mut self.numbers, &mut self.counts)
    }

    /// What the receive at an index matches by, where it is complete.
    pub(crate) fn key(&self, index: usize) -> Option<&Key>
        ensures { (keys : List (Option Key)) → IsOnComm keys (Some self.now) → option_copied result ≡ key_at keys index }
    {
        match self.keys.get(index) {
            Some(key) => key.as_ref(),
            None => None,
        }
    }

    /// How many of its key are posted before the receive at an index, where it is placed.
    pub(crate) fn number(&self, index: usize) -> Option<u32>
        ensures { (keys : List (Option Key)) → IsOnComm keys (Some self.now) → result ≡ number_at keys index }
    {
        self.numbers.as_slice().get(index).copied()
    }
}

/// Completes the receive at an index, if there is one.
fn put(keys: &mut Vec<Option<Key>>, index: usize, key: Key)
    ensures { keys.new.items ≡ set keys.old.items index (Some key) }
{
    if index < keys.len() {
        keys[index] = Some(key);
    }
}

/// Numbers the receives that are placed and have no number yet.
fn place(
    keys: &[Option<Key>],
    numbers: &mut Sequence<u32>,
    counts: &mut IndexMap<Key, u32>,
) -> Result<(), Memory>
    ensures { OnOk result (AreNumbered keys.now numbers.old counts.old.entries → ArePlaced keys.now numbers.new counts.new.entries) }
{
    for index in numbers.len()..keys.len() {
        let Some(key) = &keys[index] else {
            return Ok(());
        };
        let number = count(counts, key)?;
        numbers.push(number)?;
    }
    Ok(())
}

/// Counts one more of a key, and answers how many there were.
fn count(counts: &mut IndexMap<Key, u32>, key: &Key) -> Result<u32, Memory>
    ensures before { IfOk result (λ number. number ≡ count_of counts.old.entries key.now) }
    ensures counted { OnOk result ((other : Key) → count_of counts.new.entries other
        ≡ (if same_key key.now other then count_of counts.old.entries key.now + 1 else count_of counts.old.entries other)) }
{
    if let Some(count) = counts.get_mut(key) {
        let number = *count;
        if number == u32::MAX {
            return Err(Memory);
        }
        *count = number + 1;
        return Ok(number);
    }
    let key = key.copy()?;
    counts.insert(key, 1)?;
    Ok(0)
}
