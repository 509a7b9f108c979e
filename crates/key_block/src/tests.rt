//! What no clause says: that calls succeed where memory is there, and a payload from outside.
ghost use Rattle.std.specs.Prelude.{◌≡◌, [], ◌∷◌, IfOk, pos};
ghost use Rattle.dets_term.specs.TermValue.{integer, tuple, chain, nil};

use crate::{BlockFault, Memory, Objects, pack, unpack};
use dets_term::{Kind, Term, TermList, within_limits};
use std::alloc::Global;
use std::test::Fail;

/// `[{1},{2}]`
const TWO_KEYS: &[u8] = b"\x83l\x00\x00\x00\x02h\x01a\x01h\x01a\x02j";

/// The block of `[{1}]`.
const BLOCK: &[u8] = b"\x00\x00\x00\x00\x00\x00\x00\x0b\x83l\x00\x00\x00\x01h\x01a\x01j";

/// `[{1}]`
fn one_object(alloc: Global) -> Result<Objects, Memory>
    ensures { IfOk result (λ objects. objects ≡ tuple (chain (integer (pos 1) ∷ []) nil) ∷ []) }
{
    let mut parts = TermList::new(alloc);
    parts.push(Term::int(1))?;
    let mut objects = Objects::new(alloc);
    objects.push(within_limits(Term::tuple(parts))?)?;
    Ok(objects)
}

#[test]
fn objects_are_packed_and_unpacked(rt: HostRuntime) -> Result<(), Fail> {
    let alloc = rt.alloc();
    let objects = one_object(alloc)?;
    let packed = pack(alloc, Kind::Set, 1, &objects).map_err(|_| Memory)?;
    assert_eq!(rt; packed.exp, 0);
    assert_eq!(rt; packed.count, 1);
    assert!(rt; packed.block.as_slice() == BLOCK);
    let found = unpack(alloc, Kind::Set, 1, &BLOCK[8..]).map_err(|_| Memory)?;
    assert_eq!(rt; found.objects.len(), 1);
    Ok(())
}

#[test]
fn a_set_of_two_keys_is_refused(rt: HostRuntime) -> Result<(), Fail> {
    let found = unpack(rt.alloc(), Kind::Set, 1, TWO_KEYS);
    assert!(rt; matches!(found, Err(BlockFault::KeysDiffer)));
    Ok(())
}
