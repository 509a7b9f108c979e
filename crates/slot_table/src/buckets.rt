//! The buckets of all slots.
ghost use Rattle.std.specs.Prelude.{◌≡◌, ◌≤◌, ◌<◌, ◌+◌, ◌-◌, ◌^◌, [], ◌++◌, length, take, replicate, vec_len, OnOk, OnErr, IfOk};
ghost use Rattle.slot_table.specs.BySlot.{by_slot, HasRoomFor};
ghost use Rattle.slot_table.specs.Turns.{with_each, parts, IsPopped, IsSplit};

use crate::bucket::Bucket;
use crate::{Entry, Memory, slot_of};
use std::alloc::Global;

/// So many buckets without an entry.
pub fn empty(alloc: Global, slots: u32) -> Result<Vec<Bucket>, Memory>
    ensures { IfOk result (λ v. by_slot v.items ≡ replicate slots []) }
{
    let mut buckets = Vec::with_capacity(alloc, slots as usize)?;
    for _slot in 0..slots {
        buckets.push(Bucket::new(alloc))?;
    }
    Ok(buckets)
}

/// Puts entries into their buckets, as long as there is memory. Says how many.
pub fn push_each(buckets: &mut [Bucket], entries: &[Entry]) -> usize
    requires some { 1 ≤ length buckets.old }
    requires few { length buckets.old < 2 ^ 32 }
    ensures within { result ≤ length entries.now }
    ensures pushed { by_slot buckets.new ≡ with_each (by_slot buckets.old) (take result entries.now) }
{
    let slots = buckets.len() as u32;
    for (place, entry) in entries.iter().enumerate() {
        let slot = slot_of(entry.hash, slots) as usize;
        let bucket = &mut buckets[slot];
        match bucket.push(*entry) {
            Ok(()) => {}
            Err(_) => return place,
        }
    }
    entries.len()
}

/// Takes the last entry out of a bucket, for each of these entries out of its own.
pub fn pop_each(buckets: &mut [Bucket], entries: &[Entry])
    requires some { 1 ≤ length buckets.old }
    requires few { length buckets.old < 2 ^ 32 }
    ensures { IsPopped buckets.old buckets.new entries.now }
{
    let slots = buckets.len() as u32;
    for entry in entries {
        let bucket = &mut buckets[slot_of(entry.hash, slots) as usize];
        bucket.pop();
    }
}

/// Makes room for these entries, each in its bucket: puts them in, and takes them out again.
pub fn make_room(buckets: &mut [Bucket], entries: &[Entry]) -> Result<(), Memory>
    requires some { 1 ≤ length buckets.old }
    requires few { length buckets.old < 2 ^ 32 }
    ensures entries { by_slot buckets.new ≡ by_slot buckets.old }
    ensures room { OnOk result (HasRoomFor buckets.new entries.now) }
{
    let pushed = push_each(buckets, entries);
    pop_each(buckets, &entries[..pushed]);
    if pushed < entries.len() {
        return Err(Memory);
    }
    Ok(())
}

/// Puts a bucket behind the others for each slot from the old number on, with the entries whose slot it will be. After
/// `Memory` the old ones are as they were, with some new ones behind them.
pub fn push_parts(
    alloc: Global,
    buckets: &mut Vec<Bucket>,
    old: u32,
    slots: u32,
) -> Result<(), Memory>
    requires some { 1 ≤ old }
    requires length { vec_len buckets.old ≡ old }
    requires more { old ≤ slots }
    ensures ok { OnOk result (by_slot buckets.new.items ≡ by_slot buckets.old.items ++ parts (by_slot buckets.old.items) slots (slots - old)) }
    ensures err { OnErr result (take old buckets.new.items ≡ buckets.old.items) }
{
    for slot in old..slots {
        let bucket = buckets[slot_of(slot, old) as usize].part(alloc, slots, slot)?;
        buckets.push(bucket)?;
    }
    Ok(())
}

/// Keeps in each bucket that is split the entries whose slot it still is.
pub fn keep_own(buckets: &mut [Bucket], old: u32, slots: u32)
    requires some { 1 ≤ old }
    requires more { old ≤ slots }
    requires length { length buckets.old ≡ slots }
    requires split { IsSplit (take old (by_slot buckets.old)) slots old (by_slot buckets.old) }
    ensures { IsSplit (take old (by_slot buckets.old)) slots slots (by_slot buckets.new) }
{
    for slot in old..slots {
        let split = slot_of(slot, old);
        let bucket = &mut buckets[split as usize];
        bucket.keep(slots, split);
    }
}
