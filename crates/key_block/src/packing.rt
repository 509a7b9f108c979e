//! From the objects of a key to the bytes of a block.
ghost use Rattle.std.specs.Prelude.{◌≡◌, ◌<◌, ◌≤◌, ◌-◌, length, IfOk, OnOk, IsErrOf, IsSome};
ghost use Rattle.dets_term.specs.Parts.{deepest};
ghost use Rattle.space_model.specs.Sizes.{head_size};
ghost use Rattle.space_model.specs.Ledger.{exponent};
ghost use Rattle.file_model.specs.Layout.{run_size};
ghost use Rattle.file_model.specs.Block.{one_key};
ghost use Rattle.file_model.specs.Packing.{payload_of, MayPack, IsBlockOf};

use crate::{Objects, PackFault, Packed};
use block_disk::head_bytes;
use dets_term::{ByteList, Kind};
use etf_codec::encode_list_behind;
use space_model::ledger_laws::a_payload_has_room_in_the_least_block;
use std::alloc::Global;

const UNIT_SIZE: usize = 64;

const HEAD_SIZE: usize = 8;

/// The exponent of a block that is a whole segment.
const LARGEST: u8 = 12;

/// How many bytes are left for the payload in such a block.
const MAX_PAYLOAD: usize = 262_136;

/// The smallest block with room for the objects of a key, with its head in front. `TooLarge` exactly where their canonical
/// list has more than 262,136 bytes.
pub fn pack(alloc: Global, kind: Kind, keypos: u32, objects: &Objects) -> Result<Packed, PackFault>
    requires one_key { IsSome (one_key kind keypos objects.now) }
    requires shallow { deepest objects.now ≤ 255 }
    ensures terms { MayPack objects.now }
    ensures block { IfOk result (λ p. IsBlockOf objects.now p) }
    ensures fits { OnOk result (length (payload_of objects.now) ≤ 262136) }
    ensures too_large { IsErrOf result PackFault.TooLarge → 262136 < length (payload_of objects.now) }
{
    // what holds of every list: its elements are terms
    let _levels = objects.levels();
    // each object has a byte at least
    if objects.len() > MAX_PAYLOAD {
        return Err(PackFault::TooLarge);
    }
    let mut block = encode_list_behind(empty_head(alloc)?, objects)?;
    let length = block.len() - HEAD_SIZE;
    if length > MAX_PAYLOAD {
        return Err(PackFault::TooLarge);
    }
    let exp = exponent(length);
    block.overwrite_front(&head_bytes(exp, length as u32));
    Ok(Packed {
        exp,
        count: objects.len() as u32,
        block,
    })
}

/// Room for a head, which is known behind its payload.
fn empty_head(alloc: Global) -> Result<ByteList, PackFault>
    ensures ok { IfOk result (λ front. length front ≡ HEAD_SIZE) }
    ensures no_fault_of_its_own { IsErrOf result PackFault.TooLarge → ⊥ }
{
    let mut front = ByteList::new(alloc);
    front.extend_from_slice(&[0; HEAD_SIZE])?;
    Ok(front)
}

/// The least exponent of a block with room for a payload of so many bytes.
fn exponent(length: usize) -> u8
    requires { length ≤ MAX_PAYLOAD }
    ensures value { result ≡ exponent length }
    ensures within { result ≤ LARGEST }
    ensures room { length ≤ run_size result - head_size }
{
    a_payload_has_room_in_the_least_block();
    for exp in 0..LARGEST {
        if HEAD_SIZE + length <= UNIT_SIZE << exp {
            return exp;
        }
    }
    LARGEST
}
