//! Calls that wait for their matches.
ghost use Rattle.std.specs.Prelude.{◌≡◌, ◌++◌, [], ◌∷◌, ℕ, None, Some, drop, slice_get, OnOk, IfOk, if◌then◌else◌};
ghost use Rattle.std.specs.Map.{keys_of};
ghost use Rattle.rma_message.specs.declared.key.Key.{Key};
ghost use Rattle.rma_message.specs.Key.{same_key};
ghost use Rattle.rma_message.specs.inside.Queue.{AreLeft, queue_of};

use crate::end::End;
use crate::key::Key;
use indexmap::IndexMap;
use rma_base::Memory;
use std::alloc::Global;
use std::collections::VecDeque;

/// The calls of each key, in their order.
pub(crate) type Queues = IndexMap<Key, VecDeque<u32>>;

/// The call of one more end of its key.
pub(crate) fn push(alloc: Global, queues: &mut Queues, end: &End) -> Result<(), Memory>
    ensures { OnOk result ((key : Key) → queue_of queues.new.entries key
        ≡ (if same_key end.now.key key then queue_of queues.old.entries end.now.key ++ end.now.call ∷ [] else queue_of queues.old.entries key)) }
{
    if let Some(calls) = queues.get_mut(&end.key) {
        calls.push_back(end.call)?;
        return Ok(());
    }
    let key = end.key.copy()?;
    let mut calls = VecDeque::new(alloc);
    calls.push_back(end.call)?;
    queues.insert(key, calls)?;
    Ok(())
}

/// One more call at a place, if there is one.
pub(crate) fn push_at(queues: &mut Queues, place: Option<usize>, call: u32) -> Result<(), Memory>
    ensures keys { OnOk result (keys_of queues.new.entries ≡ keys_of queues.old.entries) }
    ensures none { OnOk result (place ≡ None → (key : Key) → queue_of queues.new.entries key ≡ queue_of queues.old.entries key) }
    ensures some { OnOk result ((index : ℕ) (own : Key) → place ≡ Some index → slice_get (keys_of queues.old.entries) index ≡ Some own → (key : Key) → queue_of queues.new.entries key
        ≡ (if same_key own key then queue_of queues.old.entries own ++ call ∷ [] else queue_of queues.old.entries key)) }
{
    let Some(index) = place else {
        return Ok(());
    };
    if let Some(calls) = queues.get_index_mut(index) {
        calls.push_back(call)?;
    }
    Ok(())
}

/// Takes the first call at a place.
pub(crate) fn pop_at(queues: &mut Queues, place: usize) -> Option<u32>
    ensures keys { keys_of queues.new.entries ≡ keys_of queues.old.entries }
    ensures first { (own : Key) → slice_get (keys_of queues.old.entries) place ≡ Some own → result ≡ slice_get (queue_of queues.old.entries own) 0 }
    ensures rest { (own : Key) → slice_get (keys_of queues.old.entries) place ≡ Some own → (key : Key) → queue_of queues.new.entries key
        ≡ (if same_key own key then drop 1 (queue_of queues.old.entries own) else queue_of queues.old.entries key) }
{
    match queues.get_index_mut(place) {
        Some(own) => own.pop_front(),
        None => None,
    }
}

/// Takes the first call of the key.
pub(crate) fn pop(queues: &mut Queues, key: &Key) -> Option<u32>
    ensures first { result ≡ slice_get (queue_of queues.old.entries key.now) 0 }
    ensures rest { (other : Key) → queue_of queues.new.entries other
        ≡ (if same_key key.now other then drop 1 (queue_of queues.old.entries key.now) else queue_of queues.old.entries other) }
{
    match queues.get_mut(key) {
        Some(calls) => calls.pop_front(),
        None => None,
    }
}

/// The calls of these ends, by key.
pub(crate) fn queues_of(alloc: Global, ends: &[End]) -> Result<Queues, Memory>
    ensures { IfOk result (λ queues. AreLeft ends.now [] queues.entries) }
{
    let mut queues = IndexMap::new(alloc);
    for end in ends {
        push(alloc, &mut queues, end)?;
    }
    Ok(queues)
}
