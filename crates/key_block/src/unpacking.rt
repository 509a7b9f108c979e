//! From the payload of a block to the objects of its key.
ghost use Rattle.std.specs.Prelude.{◌≡◌, ◌<◌, ◌^◌, cond, length, Ok, Err, IfOk};
ghost use Rattle.etf_model.specs.Canonical.{is_proper};
ghost use Rattle.dets_term.specs.TermValue.{elements};
ghost use Rattle.key_block.specs.Unpacking.{IsUnpacking, IsWhole};
ghost use Rattle.key_block.specs.declared.fault.BlockFault.TheVariants.{NotObjects};

use crate::judging::{are_objects, in_order, share_key};
use crate::{BlockFault, Objects};
use dets_term::{Kind, Node, Term};
use etf_codec::decode;
use std::alloc::Global;

/// The objects of one key, in the order of the kind.
#[derive(Drop)]
pub struct KeyBlock {
    pub objects: Objects,
}

/// The objects that a payload spells with no byte left, where the kind allows them for one key; else the first fault that
/// holds, in the order of `BlockFault`.
pub fn unpack(
    alloc: Global,
    kind: Kind,
    keypos: u32,
    payload: &[u8],
) -> Result<KeyBlock, BlockFault>
    ensures answers { IsUnpacking kind keypos payload.now result }
    ensures few { IfOk result (λ b. length b.objects < 2 ^ 32) }
{
    let term = whole_term(alloc, payload)?;
    let objects = list_elements(term)?;
    if !are_objects(keypos, &objects) {
        return Err(BlockFault::NotObjects);
    }
    if !share_key(keypos, &objects) {
        return Err(BlockFault::KeysDiffer);
    }
    if !in_order(kind, &objects) {
        return Err(BlockFault::Order);
    }
    Ok(KeyBlock { objects })
}

/// The term that all of these bytes spell.
fn whole_term(alloc: Global, payload: &[u8]) -> Result<Term, BlockFault>
    ensures { IsWhole payload.now result }
{
    let (term, count) = decode(alloc, payload)?;
    if count < payload.len() {
        return Err(BlockFault::NotTerm);
    }
    Ok(term)
}

/// The elements of a proper list, taken out of it.
fn list_elements(term: Term) -> Result<Objects, BlockFault>
    ensures elements { result ≡ cond (is_proper term) (Ok (elements term)) (Err NotObjects) }
    ensures few { IfOk result (λ objects. length objects < 2 ^ 32) }
{
    // what holds of every term: fewer than 2^32 parts in each node
    let _levels = term.depth();
    match term.into_node() {
        Node::List(parts) => Ok(parts),
        _ => Err(BlockFault::NotObjects),
    }
}
