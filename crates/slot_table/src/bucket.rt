//! The entries of one slot.
ghost use Rattle.std.specs.Prelude.{◌≡◌, ◌≤◌, ◌+◌, ◌-◌, [], ◌∷◌, ◌++◌, length, take, filter, OnOk, OnErr, IfOk};
ghost use Rattle.slot_table.specs.BySlot.{stands_in, is_other};

use crate::{Entry, Memory, slot_of};
use std::alloc::Global;
use std::marker::Model;

/// The entries of one slot. Contracts see for how many more there is room.
#[derive(Drop)]
pub struct Bucket {
    entries: Vec<Entry>,
}

impl Model for Bucket {
    ghost use Rattle.std.specs.Prelude.{◌-◌, vec_len, vec_capacity};
    ghost use Rattle.slot_table.specs.BySlot.{Slot};

    ghost Value = { Slot };

    ghost view = { λ a. record { entries = a.entries.items; spare = vec_capacity a.entries - vec_len a.entries } };
}

impl Bucket {
    /// No entry. It takes no memory yet.
    pub fn new(alloc: Global) -> Bucket
        ensures { result.entries ≡ [] }
    {
        Bucket {
            entries: Vec::new(alloc),
        }
    }

    /// The entries in the order in which they came.
    pub fn entries(&self) -> &[Entry]
        ensures { result.now ≡ self.now.entries }
    {
        self.entries.as_slice()
    }

    /// Puts an entry last, and takes memory where there is no room.
    pub fn push(&mut self, entry: Entry) -> Result<(), Memory>
        ensures ok { OnOk result (self.new.entries ≡ self.old.entries ++ entry ∷ []) }
        ensures err { OnErr result (self.new.entries ≡ self.old.entries) }
    {
        self.entries.push(entry)?;
        Ok(())
    }

    /// Puts an entry last, where there is room.
    pub fn add(&mut self, entry: Entry)
        requires { 1 ≤ self.old.spare }
        ensures entries { self.new.entries ≡ self.old.entries ++ entry ∷ [] }
        ensures room { self.old.spare ≤ self.new.spare + 1 }
    {
        let _room = self.entries.push(entry);
    }

    /// Takes out the last entry.
    pub fn pop(&mut self)
        ensures entries { self.new.entries ≡ take (length self.old.entries - 1) self.old.entries }
        ensures room { self.new.spare + length self.new.entries ≡ self.old.spare + length self.old.entries }
    {
        let _last = self.entries.pop();
    }

    /// Takes out the entries of a hash and a unit.
    pub fn remove(&mut self, hash: u32, unit: u32)
        ensures entries { self.new.entries ≡ filter (is_other hash unit) self.old.entries }
        ensures room { self.old.spare ≤ self.new.spare }
    {
        self.entries
            .retain(|entry| !(entry.hash == hash && entry.unit == unit));
    }

    /// Keeps the entries whose slot this is among so many.
    pub fn keep(&mut self, slots: u32, slot: u32)
        requires { 1 ≤ slots }
        ensures { self.new.entries ≡ filter (stands_in slots slot) self.old.entries }
    {
        self.entries
            .retain(|entry| slot_of(entry.hash, slots) == slot);
    }

    /// A bucket of the entries whose slot this is among so many.
    pub fn part(&self, alloc: Global, slots: u32, slot: u32) -> Result<Bucket, Memory>
        requires { 1 ≤ slots }
        ensures { IfOk result (λ b. b.entries ≡ filter (stands_in slots slot) self.now.entries) }
    {
        let mut bucket = Bucket::new(alloc);
        for entry in self.entries.iter() {
            if slot_of(entry.hash, slots) == slot {
                bucket.push(*entry)?;
            }
        }
        Ok(bucket)
    }
}
