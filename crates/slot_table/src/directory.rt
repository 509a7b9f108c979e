//! Where each key's block stands.
ghost use Rattle.std.specs.Prelude.{◌≡◌, ◌≢◌, ◌≤◌, ◌<◌, ◌+◌, ◌-◌, ◌^◌, ℕ, [], length, find, OnOk, OnErr, IfOk, IfSome, IfNone};
ghost use Rattle.space_model.specs.Apart.{In};
ghost use Rattle.space_model.specs.Slots.{slot_of};
ghost use Rattle.file_model.specs.declared.entry.Entry.{Entry};
ghost use Rattle.slot_table.specs.BySlot.{by_slot, spare_at, entries_at, entries_in, objects_in, is_block, HasRoomFor, with_entry, without, parted, LacksUnit, IsDirectory, IsSlotOf};

use crate::bucket::Bucket;
use crate::{Entry, Memory, buckets, slot_of};
use std::alloc::Global;
use std::marker::Model;

/// The entries of a table in a number of slots that grows. Contracts see the entries of each slot, and for how many more
/// there is room.
#[derive(Drop)]
pub struct Directory {
    buckets: Vec<Bucket>,
    keys: u32,
    objects: u64,
}

impl Model for Directory {
    ghost use Rattle.std.specs.Prelude.{List};
    ghost use Rattle.slot_table.specs.BySlot.{Slot, by_slot, IsKept};

    ghost Value = { List Slot };

    ghost view = { λ a. a.buckets.items };

    ghost invariant = { λ a. IsKept (by_slot a.buckets.items) a.keys a.objects };
}

impl Directory {
    /// So many slots, at least 256, without an entry.
    pub fn new(alloc: Global, slots: u32) -> Result<Directory, Memory>
        requires { 256 ≤ slots }
        ensures slots { IfOk result (λ d. length d ≡ slots) }
        ensures none { IfOk result (λ d. entries_in (by_slot d) ≡ []) }
    {
        let buckets = buckets::empty(alloc, slots)?;
        Ok(Directory {
            buckets,
            keys: 0,
            objects: 0,
        })
    }

    /// How many slots there are.
    pub fn slots(&self) -> u32
        ensures slots { result ≡ length self.now }
        ensures directory { IsDirectory (by_slot self.now) }
    {
        self.buckets.len() as u32
    }

    /// How many entries there are, one for each key.
    pub fn keys(&self) -> u32
        ensures { result ≡ length (entries_in (by_slot self.now)) }
    {
        self.keys
    }

    /// How many objects the keys have together.
    pub fn objects(&self) -> u64
        ensures { result ≡ objects_in (by_slot self.now) }
    {
        self.objects
    }

    /// The entries whose slot this is, each once, in the order in which they came.
    pub fn entries_of(&self, slot: u32) -> &[Entry]
        requires { slot < length self.now }
        ensures value { result.now ≡ entries_at (by_slot self.now) slot }
        ensures exactly { IsSlotOf (by_slot self.now) slot result.now }
    {
        self.buckets[slot as usize].entries()
    }

    /// Makes room for these entries, each in its slot. `Memory` leaves all entries as they were.
    pub fn reserve(&mut self, entries: &[Entry]) -> Result<(), Memory>
        ensures slots { length self.new ≡ length self.old }
        ensures entries { by_slot self.new ≡ by_slot self.old }
        ensures room { OnOk result (HasRoomFor self.new entries.now) }
    {
        buckets::make_room(&mut self.buckets, entries)
    }

    /// Puts an entry last in its slot, where room was made for it. It takes no memory.
    pub fn add(&mut self, entry: Entry)
        requires room { 1 ≤ spare_at self.old (slot_of entry.hash (length self.old)) }
        requires unit { LacksUnit (by_slot self.old) entry.unit }
        requires few { length (entries_in (by_slot self.old)) < 2 ^ 32 - 1 }
        ensures slots { length self.new ≡ length self.old }
        ensures added { by_slot self.new ≡ with_entry (by_slot self.old) entry }
        ensures room { spare_at self.old (slot_of entry.hash (length self.old)) ≤ spare_at self.new (slot_of entry.hash (length self.old)) + 1 }
        ensures others { (k : ℕ) → k ≢ slot_of entry.hash (length self.old) → spare_at self.new k ≡ spare_at self.old k }
    {
        let slot = slot_of(entry.hash, self.slots());
        let bucket = &mut self.buckets[slot as usize];
        bucket.add(entry);
        self.keys += 1;
        self.objects += u64::from(entry.count);
    }

    /// Takes out the entry of a hash and a unit. None exactly where it is not there. It takes no memory.
    pub fn remove(&mut self, hash: u32, unit: u32) -> Option<Entry>
        ensures found { IfSome result (λ e. In e (entries_in (by_slot self.old)) × (e.hash ≡ hash) × (e.unit ≡ unit)) }
        ensures absent { IfNone result ((e : Entry) → In e (entries_in (by_slot self.old)) → e.hash ≡ hash → e.unit ≢ unit) }
        ensures none { IfNone result (self.new ≡ self.old) }
        ensures slots { length self.new ≡ length self.old }
        ensures removed { by_slot self.new ≡ without (by_slot self.old) hash unit }
        ensures room { (k : ℕ) → spare_at self.old k ≤ spare_at self.new k }
    {
        let slot = slot_of(hash, self.slots()) as usize;
        let entry = find(self.buckets[slot].entries(), hash, unit)?;
        let bucket = &mut self.buckets[slot];
        bucket.remove(hash, unit);
        self.keys -= 1;
        self.objects -= u64::from(entry.count);
        Some(entry)
    }

    /// Goes to so many slots, at least as many as now. Each entry then stands in its slot among these, in the order in which
    /// they stood. `Memory` leaves all as it was.
    pub fn grow_to(&mut self, slots: u32) -> Result<(), Memory>
        requires { length self.old ≤ slots }
        ensures slots { OnOk result (length self.new ≡ slots) }
        ensures ok { OnOk result (by_slot self.new ≡ parted slots (entries_in (by_slot self.old))) }
        ensures err { OnErr result (self.new ≡ self.old) }
    {
        let old = self.slots();
        let alloc = *self.buckets.allocator();
        if let Err(memory) = buckets::push_parts(alloc, &mut self.buckets, old, slots) {
            self.buckets.truncate(old as usize);
            return Err(memory);
        }
        buckets::keep_own(&mut self.buckets, old, slots);
        Ok(())
    }
}

/// The entry of a hash and a unit.
fn find(entries: &[Entry], hash: u32, unit: u32) -> Option<Entry>
    ensures { result ≡ find (is_block hash unit) entries.now }
{
    entries
        .iter()
        .find(|entry| entry.hash == hash && entry.unit == unit)
        .copied()
}
