//! Terms without parts.
ghost use Rattle.std.specs.Prelude.{◌≡◌, ℕ, ◌≢◌, IfOk, IfErr};
ghost use Rattle.dets_term.specs.TermValue.{nil};
ghost use Rattle.etf_model.specs.Spelling.{no_tail, body_of};
ghost use Rattle.etf_codec.specs.Reads.{ReadsWithin};
ghost use Rattle.etf_codec.specs.ReadTerms.{IsLeaf};

use crate::EtfFault;
use crate::atoms::read_atom;
use crate::bits::{read_binary, read_bit_binary};
use crate::cursor::Cursor;
use crate::numbers::{integer_32, small_integer};
use dets_term::{Term, TermList, within_limits};
use etf_model::tags::{
    ATOM, ATOM_UTF8, BINARY, BIT_BINARY, INTEGER, LARGE_BIG, LARGE_TUPLE, LIST, MAP, NIL,
    SMALL_ATOM, SMALL_ATOM_UTF8, SMALL_BIG, SMALL_INTEGER, SMALL_TUPLE, STRING,
};
use std::alloc::Global;

/// What follows the tag of the term without parts that begins at an offset. A tag that has no line of its own is that
/// of the empty list.
pub(crate) fn read_leaf(
    alloc: Global,
    cursor: &mut Cursor<'_>,
    tag: u8,
    term: u64,
) -> Result<Term, EtfFault>
    requires { (tag ≢ SMALL_TUPLE) × (tag ≢ LARGE_TUPLE) × (tag ≢ STRING) × (tag ≢ LIST) × (tag ≢ MAP) × (tag ≢ SMALL_BIG) × (tag ≢ LARGE_BIG) }
    ensures reads { (levels : ℕ) → ReadsWithin (body_of levels tag) term cursor.old cursor.new result }
    ensures leaf { IfOk result IsLeaf }
{
    match tag {
        SMALL_INTEGER => small_integer(cursor),
        INTEGER => integer_32(cursor),
        ATOM => read_atom(alloc, cursor, false, 2, term),
        SMALL_ATOM => read_atom(alloc, cursor, false, 1, term),
        ATOM_UTF8 => read_atom(alloc, cursor, true, 2, term),
        SMALL_ATOM_UTF8 => read_atom(alloc, cursor, true, 1, term),
        BINARY => read_binary(alloc, cursor),
        BIT_BINARY => read_bit_binary(alloc, cursor, term),
        _ => empty_list(alloc),
    }
}

/// The end of a list without elements.
pub(crate) fn read_no_tail(alloc: Global, cursor: &mut Cursor<'_>) -> Result<Term, EtfFault>
    ensures reads { (term : ℕ) → ReadsWithin no_tail term cursor.old cursor.new result }
    ensures value { IfOk result (λ t. t ≡ nil) }
{
    let start = cursor.offset();
    let tag = cursor.byte()?;
    if tag != NIL {
        return Err(EtfFault::Unsupported(start, tag));
    }
    empty_list(alloc)
}

/// The empty list.
fn empty_list(alloc: Global) -> Result<Term, EtfFault>
    ensures ok { IfOk result (λ t. t ≡ nil) }
    ensures err { IfErr result (λ fault. fault ≡ EtfFault.Memory) }
{
    Ok(within_limits(Term::list(TermList::new(alloc)))?)
}
