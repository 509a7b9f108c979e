//! The keys of the blocks that are taken.
ghost use Rattle.std.specs.Prelude.{◌≡◌, ◌==◌, ℕ, List, Some, None, nat_eq, ◌&&◌, cond, is_none, IfOk, OnOk};
ghost use Rattle.std.specs.HashMap.{get, get_by};
ghost use Rattle.std.specs.Str.{bytes_eq};
ghost use Rattle.repair_scan.specs.KeyHash.{hash_behind};
ghost use Rattle.repair_scan.specs.TakenKeys.{AreKept, unit_of};

use crate::Memory;
use std::alloc::Global;
use std::collections::HashMap;
use std::collections::hash_map::Entry;

/// A key by the place of its spelling among those that are kept, and the unit of its block.
#[derive(Clone, Copy)]
pub(crate) struct Kept {
    from: usize,
    end: usize,
    unit: u32,
}

/// Keys, each with the unit of its block: the canonical spellings, without the byte 131 in front, one after the other; for each
/// hash the first key that has it; and the other keys, of which there are few.
#[derive(Drop)]
pub(crate) struct TakenKeys {
    alloc: Global,
    spellings: Vec<u8>,
    first: HashMap<u32, Kept>,
    others: HashMap<Vec<u8>, u32>,
}

impl TakenKeys {
    /// No keys.
    pub(crate) fn new(alloc: Global) -> TakenKeys
        ensures kept { AreKept result }
        ensures none { (bytes : List ℕ) → unit_of result bytes ≡ None }
    {
        TakenKeys {
            alloc,
            spellings: Vec::new(alloc),
            first: HashMap::new(alloc),
            others: HashMap::new(alloc),
        }
    }

    /// Puts a key that is not there yet, and answers the unit of the one that is. After `Memory` nothing is known.
    pub(crate) fn put(&mut self, hash: u32, key: &[u8], unit: u32) -> Result<Option<u32>, Memory>
        requires kept { AreKept self.old }
        requires hash { hash ≡ hash_behind key.now }
        ensures kept { OnOk result (AreKept self.new) }
        ensures had { IfOk result (λ had. had ≡ unit_of self.old key.now) }
        ensures put { IfOk result (λ had. (bytes : List ℕ)
            → unit_of self.new bytes ≡ cond (bytes_eq key.now bytes && is_none had) (Some unit) (unit_of self.old bytes)) }
    {
        let from = self.spellings.len();
        let end = from + key.len();
        let Some(kept) = put_first(&mut self.first, hash, Kept { from, end, unit })? else {
            self.spellings.extend_from_slice(key)?;
            return Ok(None);
        };
        if key == &self.spellings[kept.from..kept.end] {
            return Ok(Some(kept.unit));
        }
        put_other(self.alloc, &mut self.others, key, unit)
    }
}

/// Puts the first key of a hash, and answers the one that is there already.
fn put_first(first: &mut HashMap<u32, Kept>, hash: u32, key: Kept) -> Result<Option<Kept>, Memory>
    ensures had { IfOk result (λ had. had ≡ get nat_eq first.old hash) }
    ensures put { IfOk result (λ had. (h : ℕ) → get nat_eq first.new h ≡ cond (hash == h && is_none had) (Some key) (get nat_eq first.old h)) }
{
    match first.entry(hash)? {
        Entry::Vacant(entry) => {
            entry.insert(key);
            Ok(None)
        }
        Entry::Occupied(entry) => Ok(Some(*entry.get())),
    }
}

/// Puts a key that is not the first of its hash, and answers its unit where it is there already.
fn put_other(
    alloc: Global,
    others: &mut HashMap<Vec<u8>, u32>,
    key: &[u8],
    unit: u32,
) -> Result<Option<u32>, Memory>
    ensures had { IfOk result (λ had. had ≡ get_by (λ k. bytes_eq key.now k.items) others.old) }
    ensures put { IfOk result (λ had. (bytes : List ℕ) → get_by (λ k. bytes_eq bytes k.items) others.new
        ≡ cond (bytes_eq key.now bytes && is_none had) (Some unit) (get_by (λ k. bytes_eq bytes k.items) others.old)) }
{
    if let Some(other) = others.get(key) {
        return Ok(Some(*other));
    }
    others.insert(Vec::from_slice(alloc, key)?, unit)?;
    Ok(None)
}
