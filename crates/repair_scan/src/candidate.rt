//! What is known of a block that stands at an open unit.
ghost use Rattle.std.specs.Prelude.{◌≡◌, ◌≤◌, ◌^◌};
ghost use Rattle.std.specs.Cow.{cow_slice_items};
ghost use Rattle.repair_scan.specs.KeyHash.{hash_behind};

use dets_term::hash_bytes;
use etf_model::tags::VERSION;
use slot_table::Entry;
use std::borrow::CowSlice;

/// The factor of the hash.
const PRIME: u32 = 16_777_619;

/// What is known of a block without its objects: its entry, and the canonical spelling of its key without the byte 131 in
/// front.
#[derive(Drop)]
pub(crate) struct Candidate<'a> {
    pub(crate) entry: Entry,
    pub(crate) key: CowSlice<'a, u8>,
    ghost small: { entry.exp ≤ 12 },
    ghost hashed: { entry.hash ≡ hash_behind (cow_slice_items key) },
}

/// The hash of a key, by its canonical spelling without the byte 131 in front.
pub(crate) fn hash_behind(key: &[u8]) -> u32
    ensures { result ≡ hash_behind key.now }
{
    let mut hash = hash_bytes(&[VERSION]);
    for byte in key {
        hash = (hash ^ u32::from(*byte)).wrapping_mul(PRIME);
    }
    hash
}

/// How many units a block has.
pub(crate) fn run_units(exp: u8) -> u32
    requires { exp ≤ 12 }
    ensures value { result ≡ 2 ^ exp }
    ensures within { result ≤ 4096 }
{
    1 << exp
}
