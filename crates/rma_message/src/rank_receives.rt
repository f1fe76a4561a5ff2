//! The receives of one rank, as its calls come.
ghost use Rattle.std.specs.Prelude.{◌≡◌, ◌<◌, ◌++◌, ◌∷◌, [], ℕ, List, Option, None, Some, false, nat_eq, length, IfOk, OnOk, option_copied, set};
ghost use Rattle.std.specs.Cmp.Lexicographic.{pointwise};
ghost use Rattle.std.specs.Option.{option_and_then};
ghost use Rattle.rma_base.specs.declared.line.LineNo.{LineNo};
ghost use Rattle.rma_call.specs.declared.what.What.TheVariants.{Sync};
ghost use Rattle.rma_call.specs.declared.what.SyncCall.TheVariants.{Message};
ghost use Rattle.rma_message.specs.declared.key.Key.{Key};
ghost use Rattle.rma_message.specs.declared.receive.Receive.{Receive};
ghost use Rattle.rma_message.specs.Receive.{posted, waited};
ghost use Rattle.rma_message.specs.RankMessages.{RankMessages, with_what};
ghost use Rattle.rma_message.specs.Source.{completed_at};
ghost use Rattle.rma_message.specs.inside.Live.{AreBefore, AreReceives, IsOnComm, kept_on, keys_on, key_at, place_of};

use crate::comm_receives::CommReceives;
use crate::key::Key;
use indexmap::IndexMap;
use rma_base::{Memory, Name, Rank};
use rma_call::{MessageCall, Received};
use std::alloc::Global;

/// Where a receive stands.
#[derive(Drop)]
pub(crate) struct Place {
    /// Its communicator.
    comm: Name,
    /// How many receives its rank posted before it on the communicator.
    pub(crate) index: usize,
}

/// The receives of one rank.
#[derive(Drop)]
pub(crate) struct RankReceives {
    /// Those on each communicator.
    comms: IndexMap<Name, CommReceives>,
    /// By the number of a request the place of its receive, while that is not complete.
    pending: IndexMap<u32, Place>,
    /// By the number of a call the place of the receive that it completes.
    completed: IndexMap<u32, Place>,
}

impl RankReceives {
    /// None.
    pub(crate) fn new(alloc: Global) -> RankReceives
        ensures { (rank : ℕ) → AreReceives rank [] result }
    {
        RankReceives {
            comms: IndexMap::new(alloc),
            pending: IndexMap::new(alloc),
            completed: IndexMap::new(alloc),
        }
    }

    /// Takes a call of this number and request.
    pub(crate) fn take(
        &mut self,
        alloc: Global,
        rank: Rank,
        number: u32,
        request: Option<u32>,
        message: &MessageCall,
    ) -> Result<(), Memory>
        ensures { OnOk result ((own : RankMessages) (line : LineNo) → AreBefore number own.receives → AreReceives rank.0 own.receives self.old
            → AreReceives rank.0 (with_what own number line request (Sync (Message message.now))).receives self.new) }
    {
        match message {
            MessageCall::Send { .. } | MessageCall::Isend { .. } => Ok(()),
            MessageCall::Recv { from, tag, comm } => {
                self.receive(alloc, rank, number, *from, *tag, comm)
            }
            MessageCall::Irecv { comm } => self.post(alloc, request, comm),
            MessageCall::Wait { received } => self.wait(rank, number, request, *received),
        }
    }

    /// Takes a receive that its own call completes.
    fn receive(
        &mut self,
        alloc: Global,
        rank: Rank,
        number: u32,
        from: Rank,
        tag: u32,
        comm: &Name,
    ) -> Result<(), Memory>
        ensures { OnOk result ((receives : List Receive) (line : LineNo) → AreBefore number receives → AreReceives rank.0 receives self.old
            → AreReceives rank.0 (receives ++ posted comm.now line None (Some (record { from = from; tag = tag; call = number })) ∷ []) self.new) }
    {
        let key = Key {
            from,
            to: rank,
            comm: comm.copy()?,
            tag,
        };
        let place = post(alloc, &mut self.comms, comm, Some(key))?;
        self.completed.insert(number, place)?;
        Ok(())
    }

    /// Takes a receive that a later call completes.
    fn post(&mut self, alloc: Global, request: Option<u32>, comm: &Name) -> Result<(), Memory>
        ensures { OnOk result ((rank : ℕ) (receives : List Receive) (line : LineNo) → AreReceives rank receives self.old
            → AreReceives rank (receives ++ posted comm.now line request None ∷ []) self.new) }
    {
        let place = post(alloc, &mut self.comms, comm, None)?;
        if let Some(request) = request {
            self.pending.insert(request, place)?;
        }
        Ok(())
    }

    /// Takes a call that completes a request, where it got a message.
    fn wait(
        &mut self,
        rank: Rank,
        number: u32,
        request: Option<u32>,
        received: Option<Received>,
    ) -> Result<(), Memory>
        ensures { OnOk result ((receives : List Receive) → AreBefore number receives → AreReceives rank.0 receives self.old
            → AreReceives rank.0 (waited request received number receives) self.new) }
    {
        let (Some(request), Some(received)) = (request, received) else {
            return Ok(());
        };
        let Some(place) = self.pending.swap_remove(&request) else {
            return Ok(());
        };
        let key = Key {
            from: received.from,
            to: rank,
            comm: place.comm.copy()?,
            tag: received.tag,
        };
        complete(&mut self.comms, &place, key)?;
        self.completed.insert(number, place)?;
        Ok(())
    }

    /// Where the receive stands that the call of this number completes.
    pub(crate) fn completed(&self, number: u32) -> Option<&Place>
        ensures { (rank : ℕ) (receives : List Receive) → AreReceives rank receives self.now
            → option_copied result ≡ option_and_then (place_of receives) (completed_at number receives) }
    {
        self.completed.get(&number)
    }

    /// The receives on the communicator of a place.
    pub(crate) fn on(&self, place: &Place) -> Option<&CommReceives>
        ensures { (rank : ℕ) (receives : List Receive) → AreReceives rank receives self.now → IsOnComm (keys_on rank place.now.comm receives) (option_copied result) }
    {
        self.comms.get(&place.comm)
    }
}

/// Takes the next receive on the communicator, and answers where it stands.
fn post(
    alloc: Global,
    comms: &mut IndexMap<Name, CommReceives>,
    comm: &Name,
    key: Option<Key>,
) -> Result<Place, Memory>
    ensures place { IfOk result (λ place. (keys : List (Option Key)) → IsOnComm keys (kept_on comms.old.entries comm.now)
        → place ≡ record { comm = comm.now; index = length keys }) }
    ensures own { OnOk result ((keys : List (Option Key)) → IsOnComm keys (kept_on comms.old.entries comm.now)
        → IsOnComm (keys ++ key ∷ []) (kept_on comms.new.entries comm.now)) }
    ensures others { OnOk result ((other : List ℕ) → pointwise nat_eq comm.now other ≡ false → kept_on comms.new.entries other ≡ kept_on comms.old.entries other) }
{
    let name = comm.copy()?;
    if let Some(receives) = comms.get_mut(comm) {
        let index = receives.post(key)?;
        return Ok(Place { comm: name, index });
    }
    let mut receives = CommReceives::new(alloc);
    let index = receives.post(key)?;
    comms.insert(comm.copy()?, receives)?;
    Ok(Place { comm: name, index })
}

/// Completes the receive at a place.
fn complete(comms: &mut IndexMap<Name, CommReceives>, place: &Place, key: Key) -> Result<(), Memory>
    ensures own { OnOk result ((keys : List (Option Key)) → IsOnComm keys (kept_on comms.old.entries place.now.comm)
        → place.now.index < length keys → key_at keys place.now.index ≡ None
        → IsOnComm (set keys place.now.index (Some key)) (kept_on comms.new.entries place.now.comm)) }
    ensures others { OnOk result ((other : List ℕ) → pointwise nat_eq place.now.comm other ≡ false → kept_on comms.new.entries other ≡ kept_on comms.old.entries other) }
{
    match comms.get_mut(&place.comm) {
        Some(receives) => receives.complete(place.index, key),
        None => Ok(()),
    }
}
