//! The pending states of keys.
ghost use Rattle.std.specs.Prelude.{◌≡◌, ◌-◌, ◌^◌, min, [], length, OnOk, OnErr, None, slice_get};
ghost use Rattle.std.specs.Option.{option_copied};
ghost use Rattle.write_cache.specs.PendingState.{old_length};
ghost use Rattle.write_cache.specs.Waiting.{with_state, state_of, states_of, bytes_of, HasDistinctKeys};

use crate::{Memory, Pending};
use dets_term::ByteList;
use indexmap::IndexMap;
use std::alloc::Global;
use std::marker::Model;

/// Keys, each with its pending state, in the order of first touch. Contracts see the list of both.
#[derive(Drop)]
pub struct WriteCache {
    states: IndexMap<Vec<u8>, Pending>,
    total: u128,
}

impl Model for WriteCache {
    ghost use Rattle.write_cache.specs.Waiting.{Waiting, seen, IsKept};

    ghost Value = { Waiting };

    ghost view = { λ a. seen a.states.entries (λ k. k.items) };

    ghost invariant = { λ a. IsKept (seen a.states.entries (λ k. k.items)) a.total };
}

impl WriteCache {
    /// The cache without a key. It takes no memory yet.
    pub fn new(alloc: Global) -> WriteCache
        ensures { result ≡ [] }
    {
        WriteCache {
            states: IndexMap::new(alloc),
            total: 0,
        }
    }

    /// Puts the state of a key. A key that is there keeps its place, and another one comes last. `Memory` comes only for a
    /// key that is not there, and leaves the cache as it was.
    pub fn put(&mut self, key: ByteList, state: Pending) -> Result<(), Memory>
        ensures ok { OnOk result (self.new ≡ with_state self.old key state) }
        ensures err { OnErr result (self.new ≡ self.old) }
        ensures absent { OnErr result (state_of self.old key ≡ None) }
        ensures distinct { HasDistinctKeys self.new }
    {
        let length = state.block_length() as u128;
        // its clauses bound the number of keys, and so the total
        let _count = self.states.len();
        let with_both = self.total + length;
        let old = self.states.insert(key.into_vec(), state)?;
        self.total = with_both - old_length(&old) as u128;
        Ok(())
    }

    /// The state of a key.
    pub fn get(&self, key: &[u8]) -> Option<&Pending>
        ensures { option_copied result ≡ state_of self.now key.now }
    {
        self.states.get(key)
    }

    /// The state at a place, counted from 0 in the order of first touch.
    pub fn at(&self, place: usize) -> Option<&Pending>
        ensures { option_copied result ≡ slice_get (states_of self.now) place }
    {
        let (_, state) = self.states.get_index(place)?;
        Some(state)
    }

    /// How many keys there are.
    pub fn len(&self) -> usize
        ensures len { result ≡ length self.now }
        ensures distinct { HasDistinctKeys self.now }
    {
        self.states.len()
    }

    /// The bytes of all pending blocks together, or 2^64 - 1 where they are more.
    pub fn bytes(&self) -> u64
        ensures { result ≡ min (bytes_of self.now) (2 ^ 64 - 1) }
    {
        if self.total > u64::MAX as u128 {
            u64::MAX
        } else {
            self.total as u64
        }
    }

    /// Takes out all keys.
    pub fn clear(&mut self)
        ensures { self.new ≡ [] }
    {
        self.states.clear();
        self.total = 0;
    }
}

/// The bytes of the block that a replaced state had, 0 where none was replaced.
fn old_length(old: &Option<Pending>) -> usize
    ensures { result ≡ old_length old.now }
{
    match old {
        Some(state) => state.block_length(),
        None => 0,
    }
}
