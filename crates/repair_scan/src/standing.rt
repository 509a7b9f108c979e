//! What stands at an open unit, read from its bytes.
ghost use Rattle.std.specs.Prelude.{◌≡◌, ◌<◌, ◌≤◌, ◌+◌, ◌-◌, ◌%◌, ◌^◌, length, take, drop, IfOk};
ghost use Rattle.std.specs.Option.{option_copied};
ghost use Rattle.space_model.specs.Sizes.{head_size, segment_units};
ghost use Rattle.file_model.specs.Layout.{run_size, unit_at, segment_end};
ghost use Rattle.file_model.specs.Block.{term_in, proper_elements, one_key, block_with, block_of, standing};
ghost use Rattle.std.specs.Cow.{cow_slice_items};
ghost use Rattle.repair_scan.specs.Candidates.{IsRead, first_key};
ghost use Rattle.repair_scan.specs.KeyHash.{hash_behind};

use crate::candidate::{Candidate, hash_behind, run_units};
use crate::{Memory, Reason};
use block_disk::head_in;
use dets_term::{Kind, Term, hash_bytes, key_of};
use etf_codec::encode;
use file_model::laws::gates_and_units_do_not_meet;
use key_block::laws::{a_single_key_is_that_of_one_object, what_is_refused_is_no_block};
use key_block::{BlockFault, Objects, single_key, unpack};
use slot_table::Entry;
use std::alloc::Global;
use std::borrow::CowSlice;

const HEAD_SIZE: usize = 8;

/// What stands at a unit, by the bytes from there to the end of its segment.
pub(crate) fn read_standing(
    alloc: Global,
    kind: Kind,
    keypos: u32,
    unit: u32,
    bytes: &[u8],
) -> Result<Result<Candidate<'_>, Reason>, Memory>
    requires size { unit_at segment_units unit + length bytes.now ≡ segment_end segment_units unit }
    ensures { IfOk result (λ found. IsRead unit found (standing segment_units kind keypos unit bytes.now)) }
{
    let Some((exp, length)) = head_in(bytes) else {
        return Ok(Err(Reason::BadHead));
    };
    if unit % run_units(exp) != 0 {
        return Ok(Err(Reason::NotAligned));
    }
    let payload = payload_behind(unit, exp, length, bytes);
    read_payload(alloc, kind, keypos, unit, exp, payload)
}

/// The payload of a block that is aligned, and so ends in its segment.
fn payload_behind(unit: u32, exp: u8, count: u32, bytes: &[u8]) -> &[u8]
    requires size { unit_at segment_units unit + length bytes.now ≡ segment_end segment_units unit }
    requires exponent { exp ≤ 12 }
    requires fits { count ≤ run_size exp - head_size }
    requires aligned { unit % 2 ^ exp ≡ 0 }
    ensures { result.now ≡ take count (drop head_size bytes.now) }
{
    gates_and_units_do_not_meet();
    &bytes[HEAD_SIZE..HEAD_SIZE + count as usize]
}

/// The block of a payload, where it is a list that the kind allows for one key.
fn read_payload(
    alloc: Global,
    kind: Kind,
    keypos: u32,
    unit: u32,
    exp: u8,
    payload: &[u8],
) -> Result<Result<Candidate<'_>, Reason>, Memory>
    requires { exp ≤ 12 }
    ensures { IfOk result (λ found. IsRead unit found (block_of kind keypos unit exp (proper_elements (term_in payload.now)))) }
{
    a_single_key_is_that_of_one_object();
    what_is_refused_is_no_block();
    if let Some(key) = single_key(keypos, payload) {
        return Ok(Ok(single_candidate(unit, exp, key)));
    }
    match unpack(alloc, kind, keypos, payload) {
        Ok(block) => candidate_of(alloc, keypos, unit, exp, &block.objects),
        Err(BlockFault::Memory) => Err(Memory),
        Err(_) => Ok(Err(Reason::BadPayload)),
    }
}

/// The block of objects whose key is that of the first.
fn candidate_of(
    alloc: Global,
    keypos: u32,
    unit: u32,
    exp: u8,
    objects: &Objects,
) -> Result<Result<Candidate<'static>, Reason>, Memory>
    requires exponent { exp ≤ 12 }
    requires few { length objects.now < 2 ^ 32 }
    ensures { IfOk result (λ found. IsRead unit found (block_with unit exp objects.now (first_key keypos objects.now))) }
{
    let Some(key) = first_key(keypos, objects) else {
        return Ok(Err(Reason::BadPayload));
    };
    // what holds of every key: it is a term
    let _levels = key.depth();
    let mut spelled = encode(alloc, key)?.into_vec();
    let entry = Entry {
        hash: hash_bytes(spelled.as_slice()),
        unit,
        exp,
        count: objects.len() as u32,
    };
    let _version = spelled.remove(0);
    Ok(Ok(Candidate {
        entry,
        key: CowSlice::Owned(spelled),
    }))
}

/// The block of one object whose key is spelled so.
fn single_candidate(unit: u32, exp: u8, key: &[u8]) -> Candidate<'_>
    requires { exp ≤ 12 }
    ensures entry { result.entry ≡ record { hash = hash_behind key.now; unit = unit; exp = exp; count = 1 } }
    ensures key { cow_slice_items result.key ≡ key.now }
{
    let entry = Entry {
        hash: hash_behind(key),
        unit,
        exp,
        count: 1,
    };
    Candidate {
        entry,
        key: CowSlice::Borrowed(key),
    }
}

/// The key of the first object.
fn first_key(keypos: u32, objects: &Objects) -> Option<&Term>
    ensures { option_copied result ≡ first_key keypos objects.now }
{
    key_of(objects.get(0)?, keypos)
}
