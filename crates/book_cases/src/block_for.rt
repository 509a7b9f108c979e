//! A new block of a key.
ghost use Rattle.std.specs.Prelude.{◌≡◌, ◌∷◌, [], Some, IsTrue, IfOk};
ghost use Rattle.etf_model.specs.Canonical.{spelled};
ghost use Rattle.file_model.specs.Block.{one_key};
ghost use Rattle.book_model.specs.Planning.{IsBlockFor};

use crate::fault::Fault;
use dets_term::{ByteList, Memory, Term, TermList, eq, key_of};
use file_model::{Head, Packed};
use key_block::pack;
use std::alloc::Global;

/// No block has a greater exponent.
const LARGEST: u8 = 12;

/// The bytes of a block of `[{Key,Binary}]` beside the spelling of its key and the bytes of its binary: a head of 8, `l`
/// and the length of the list, `h` and that of the tuple, `m` and that of the binary, and `j`.
const AROUND: usize = 21;

/// A block of one object, a key with a binary that fills 2 to the power of the exponent units.
pub fn block_for(
    alloc: Global,
    head: &Head,
    key: &Term,
    key_bytes: usize,
    exp: u8,
) -> Result<Packed, Fault>
    ensures { IfOk result (λ p. IsBlockFor head.now (spelled key.now) p) }
{
    let filling = filling(exp, key_bytes).ok_or(Fault::BadLine)?;
    let object = object(alloc, key, filling)?;
    if !has_key(head, key, &object) {
        return Err(Fault::BadLine);
    }
    let mut objects = TermList::new(alloc);
    objects.push(object)?;
    if objects.levels() > 255 {
        return Err(Fault::BadLine);
    }
    Ok(pack(alloc, head.kind, head.keypos, &objects)?)
}

/// How many bytes of a binary fill the block of a key whose spelling has so many bytes. None where there is no such block.
fn filling(exp: u8, key_bytes: usize) -> Option<usize> {
    if exp > LARGEST {
        return None;
    }
    (64usize << exp).checked_sub(AROUND)?.checked_sub(key_bytes)
}

/// `{Key,Binary}`
fn object(alloc: Global, key: &Term, filling: usize) -> Result<Term, Fault> {
    let mut parts = TermList::new(alloc);
    parts.push(key.copy(alloc)?)?;
    parts.push(binary(alloc, filling)?)?;
    Ok(Term::tuple(parts)?)
}

/// A binary of so many bytes, none of which is zero.
fn binary(alloc: Global, count: usize) -> Result<Term, Fault> {
    let mut bytes = ByteList::new(alloc);
    for _ in 0..count {
        bytes.push(b'x')?;
    }
    Ok(Term::bits(bytes, 8)?)
}

/// Whether this is the key of an object in a table with this header.
fn has_key(head: &Head, key: &Term, object: &Term) -> bool
    ensures { IsTrue result → one_key head.now.kind head.now.keypos (object.now ∷ []) ≡ Some key.now }
{
    match key_of(object, head.keypos) {
        Some(found) => eq(found, key),
        None => false,
    }
}
