//! The lists beside accesses (MPI 4.0, "One-Sided Communications").
ghost use Rattle.std.specs.Prelude.{◌≡◌, ◌<◌, ◌^◌, ◌++◌, [], ◌∷◌, All, OnOk, OnErr};
ghost use Rattle.rma_rules.specs.Spans.{AreCalls, AreLists, calls_under, publishing_of, visible_of, with_call};
ghost use Rattle.rma_rules.specs.inside.Lists.{with_call_at};

use crate::span::{Exposure, LockSpan, Owner, Post};
use indexmap::IndexMap;
use rma_base::{Memory, Rank, Sequence};
use rma_window::WindowId;
use std::alloc::Global;
use std::marker::Model;

/// The calls that make stores and updates visible, by rank and window, and the epochs in which accesses lie.
#[derive(Drop)]
pub struct Spans {
    /// The calls that publish the stores of a rank to a window, ascending.
    publishing: IndexMap<Owner, Sequence<u32>>,
    /// The calls that make the updates through a window visible to a rank, ascending.
    visible: IndexMap<Owner, Sequence<u32>>,
    /// The exposure epochs.
    exposures: Sequence<Exposure>,
    /// The lock epochs.
    locks: Sequence<LockSpan>,
    /// The posts.
    posts: Sequence<Post>,
}

impl Model for Spans {
    ghost use Rattle.rma_rules.specs.Spans.{AreLists, Spans};

    ghost Value = { Spans };

    ghost view = { λ own. record { publishing = own.publishing.entries; visible = own.visible.entries; exposures = own.exposures; locks = own.locks; posts = own.posts } };

    ghost invariant = { λ own. AreLists own.publishing.entries × AreLists own.visible.entries };
}

impl Spans {
    /// Nothing yet.
    pub fn new(alloc: Global) -> Spans
        ensures { result ≡ record { publishing = []; visible = []; exposures = []; locks = []; posts = [] } }
    {
        Spans {
            publishing: IndexMap::new(alloc),
            visible: IndexMap::new(alloc),
            exposures: Sequence::new(alloc),
            locks: Sequence::new(alloc),
            posts: Sequence::new(alloc),
        }
    }

    /// Adds a call of the owner that publishes its stores to the window: it comes after those added before.
    ///
    /// # Errors
    ///
    /// `Memory`, and then all is as it was.
    pub fn add_publishing(&mut self, owner: Rank, window: WindowId, call: u32) -> Result<(), Memory>
        requires after { All (λ earlier. earlier < call) (publishing_of self.old owner window) }
        requires small { call < 2 ^ 31 }
        ensures ok { OnOk result (self.new ≡ record self.old { publishing = with_call self.old.publishing owner window call }) }
        ensures err { OnErr result (self.new ≡ self.old) }
    {
        let alloc = self.posts.allocator();
        add_call(alloc, &mut self.publishing, owner, window, call)
    }

    /// Adds a call of the owner that makes the updates through the window visible to it: it comes after those added before.
    ///
    /// # Errors
    ///
    /// `Memory`, and then all is as it was.
    pub fn add_visible(&mut self, owner: Rank, window: WindowId, call: u32) -> Result<(), Memory>
        requires after { All (λ earlier. earlier < call) (visible_of self.old owner window) }
        requires small { call < 2 ^ 31 }
        ensures ok { OnOk result (self.new ≡ record self.old { visible = with_call self.old.visible owner window call }) }
        ensures err { OnErr result (self.new ≡ self.old) }
    {
        let alloc = self.posts.allocator();
        add_call(alloc, &mut self.visible, owner, window, call)
    }

    /// Adds an exposure epoch.
    ///
    /// # Errors
    ///
    /// `Memory`, and then all is as it was.
    pub fn add_exposure(&mut self, exposure: Exposure) -> Result<(), Memory>
        ensures ok { OnOk result (self.new ≡ record self.old { exposures = self.old.exposures ++ exposure ∷ [] }) }
        ensures err { OnErr result (self.new ≡ self.old) }
    {
        self.exposures.push(exposure)
    }

    /// Adds a lock epoch.
    ///
    /// # Errors
    ///
    /// `Memory`, and then all is as it was.
    pub fn add_lock(&mut self, lock: LockSpan) -> Result<(), Memory>
        ensures ok { OnOk result (self.new ≡ record self.old { locks = self.old.locks ++ lock ∷ [] }) }
        ensures err { OnErr result (self.new ≡ self.old) }
    {
        self.locks.push(lock)
    }

    /// Adds a post.
    ///
    /// # Errors
    ///
    /// `Memory`, and then all is as it was.
    pub fn add_post(&mut self, post: Post) -> Result<(), Memory>
        ensures ok { OnOk result (self.new ≡ record self.old { posts = self.old.posts ++ post ∷ [] }) }
        ensures err { OnErr result (self.new ≡ self.old) }
    {
        self.posts.push(post)
    }

    /// The calls of the owner that publish its stores to the window, by number.
    pub fn publishing(&self, owner: Rank, window: WindowId) -> &[u32]
        ensures calls { result.now ≡ publishing_of self.now owner window }
        ensures ascend { AreCalls result.now }
    {
        calls_of(&self.publishing, owner, window)
    }

    /// The calls of the owner that make the updates through the window visible to it, by number.
    pub fn visible(&self, owner: Rank, window: WindowId) -> &[u32]
        ensures calls { result.now ≡ visible_of self.now owner window }
        ensures ascend { AreCalls result.now }
    {
        calls_of(&self.visible, owner, window)
    }

    /// The exposure epochs, in the order in which they were added.
    pub fn exposures(&self) -> &[Exposure]
        ensures { result.now ≡ self.now.exposures }
    {
        self.exposures.as_slice()
    }

    /// The lock epochs, in the order in which they were added.
    pub fn locks(&self) -> &[LockSpan]
        ensures { result.now ≡ self.now.locks }
    {
        self.locks.as_slice()
    }

    /// The posts, in the order in which they were added.
    pub fn posts(&self) -> &[Post]
        ensures { result.now ≡ self.now.posts }
    {
        self.posts.as_slice()
    }
}

/// The calls of a rank and a window.
fn calls_of(lists: &IndexMap<Owner, Sequence<u32>>, rank: Rank, window: WindowId) -> &[u32]
    requires { AreLists lists.now.entries }
    ensures calls { result.now ≡ calls_under lists.now.entries rank window }
    ensures ascend { AreCalls result.now }
{
    match lists.get(&Owner { rank, window }) {
        Some(calls) => calls.as_slice(),
        None => &[],
    }
}

/// Puts a call at the end of those of a rank and a window.
fn add_call(
    alloc: Global,
    lists: &mut IndexMap<Owner, Sequence<u32>>,
    rank: Rank,
    window: WindowId,
    call: u32,
) -> Result<(), Memory>
    requires lists { AreLists lists.old.entries }
    requires after { All (λ earlier. earlier < call) (calls_under lists.old.entries rank window) }
    requires small { call < 2 ^ 31 }
    ensures lists { AreLists lists.new.entries }
    ensures ok { OnOk result (lists.new.entries ≡ with_call lists.old.entries rank window call) }
    ensures err { OnErr result (lists.new.entries ≡ lists.old.entries) }
{
    let owner = Owner { rank, window };
    if let Some(place) = lists.get_index_of(&owner) {
        return push_at(lists, place, call);
    }
    let mut calls = Sequence::new(alloc);
    calls.push(call)?;
    lists.insert(owner, calls)?;
    Ok(())
}

/// Puts a call at the end of the list at a place, if there is one.
fn push_at(
    lists: &mut IndexMap<Owner, Sequence<u32>>,
    place: usize,
    call: u32,
) -> Result<(), Memory>
    ensures ok { OnOk result (lists.new.entries ≡ with_call_at lists.old.entries place call) }
    ensures err { OnErr result (lists.new.entries ≡ lists.old.entries) }
{
    match lists.get_index_mut(place) {
        Some(calls) => calls.push(call),
        None => Ok(()),
    }
}
