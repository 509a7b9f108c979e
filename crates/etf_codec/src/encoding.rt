ghost use Rattle.std.specs.Prelude.{◌≡◌, ◌<◌, ◌≤◌, ◌^◌, ◌∷◌, ◌++◌, true, cond, length, map, IfOk, OnOk, Some, None};
ghost use Rattle.std.specs.List.{flat_map};
ghost use Rattle.std.specs.Str.{chars};
ghost use Rattle.dets_term.specs.TermValue.{nil, chain};
ghost use Rattle.dets_term.specs.BitString.{bits_of, IsPadded};
ghost use Rattle.etf_model.specs.Canonical.{canonical, spelled, head, tuple_head, text_head, magnitude_bytes, big_spelling};
ghost use Rattle.etf_model.specs.Canonical.{integer_spelling, atom_spelling, bits_spelling, is_byte, byte_value, are_bytes};

use crate::Memory;
use dets_term::{ByteList, Node, PairList, Term, TermList};
use etf_model::tags::{
    ATOM_UTF8, BINARY, BIT_BINARY, INTEGER, LARGE_TUPLE, LIST, MAP, NIL, SMALL_ATOM_UTF8,
    SMALL_BIG, SMALL_INTEGER, SMALL_TUPLE, STRING, VERSION,
};
use std::alloc::Global;

/// The canonical spelling of a term, with the byte 131 in front.
pub fn encode(alloc: Global, term: &Term) -> Result<ByteList, Memory>
    ensures { IfOk result (λ bytes. bytes ≡ VERSION ∷ canonical term.now) }
{
    let mut out = ByteList::new(alloc);
    out.push(VERSION)?;
    encode_term(&mut out, term)?;
    Ok(out)
}

/// The canonical spelling of a list of these terms, behind bytes that are there already.
pub fn encode_list_behind(front: ByteList, parts: &TermList) -> Result<ByteList, Memory>
    requires { length parts.now < 2 ^ 32 }
    ensures { IfOk result (λ bytes. bytes ≡ front ++ spelled (chain parts.now nil)) }
{
    let mut out = front;
    out.push(VERSION)?;
    encode_list(&mut out, parts)?;
    Ok(out)
}

#[cycle(encode)]
fn encode_term(out: &mut ByteList, term: &Term) -> Result<(), Memory>
    ensures { OnOk result (out.new ≡ out.old ++ canonical term.now) }
{
    // what holds of every term: fewer than 2^32 parts or bytes in each node
    let _levels = term.depth();
    match term.node() {
        Node::Int(value) => encode_integer(out, *value),
        Node::Atom(name) => encode_atom(out, name.as_str()),
        Node::Tuple(parts) => {
            encode_arity(out, parts.len())?;
            encode_each(out, parts)
        }
        Node::Map(pairs) => {
            encode_head(out, MAP, pairs.len())?;
            encode_pairs(out, pairs)
        }
        Node::List(parts) => encode_list(out, parts),
        Node::Improper(parts, tail) => {
            encode_head(out, LIST, parts.len())?;
            encode_each(out, parts)?;
            encode_term(out, tail)
        }
        Node::Bits(bytes, used) => encode_bits(out, bytes.as_slice(), *used),
    }
}

/// The elements of a list or a tuple.
#[cycle(encode)]
fn encode_each(out: &mut ByteList, parts: &TermList) -> Result<(), Memory>
    ensures { OnOk result (out.new ≡ out.old ++ flat_map canonical parts.now) }
{
    for index in 0..parts.len() {
        if let Some(part) = parts.get(index) {
            encode_term(out, part)?;
        }
    }
    Ok(())
}

/// Each key and, behind it, its value.
#[cycle(encode)]
fn encode_pairs(out: &mut ByteList, pairs: &PairList) -> Result<(), Memory>
    ensures { OnOk result (out.new ≡ out.old ++ flat_map (λ p. canonical p.0 ++ canonical p.1) pairs.now) }
{
    for index in 0..pairs.len() {
        if let Some(pair) = pairs.get(index) {
            encode_term(out, &pair.0)?;
            encode_term(out, &pair.1)?;
        }
    }
    Ok(())
}

/// A list that ends in the empty one.
#[cycle(encode)]
fn encode_list(out: &mut ByteList, parts: &TermList) -> Result<(), Memory>
    requires { length parts.now < 2 ^ 32 }
    ensures { OnOk result (out.new ≡ out.old ++ canonical (chain parts.now nil)) }
{
    if parts.len() == 0 {
        return out.push(NIL);
    }
    if are_bytes(parts) {
        return encode_string(out, parts);
    }
    encode_head(out, LIST, parts.len())?;
    encode_each(out, parts)?;
    out.push(NIL)
}

/// A tag and a number of 32 bits behind it.
fn encode_head(out: &mut ByteList, tag: u8, count: usize) -> Result<(), Memory>
    requires { count < 2 ^ 32 }
    ensures { OnOk result (out.new ≡ out.old ++ head tag 4 count) }
{
    out.push(tag)?;
    out.extend_from_slice(&(count as u32).to_be_bytes())
}

/// The tag of a tuple and the number of its elements.
fn encode_arity(out: &mut ByteList, arity: usize) -> Result<(), Memory>
    requires { arity < 2 ^ 32 }
    ensures { OnOk result (out.new ≡ out.old ++ tuple_head arity) }
{
    if arity > 255 {
        return encode_head(out, LARGE_TUPLE, arity);
    }
    out.push(SMALL_TUPLE)?;
    out.push(arity as u8)
}

fn encode_integer(out: &mut ByteList, value: i128) -> Result<(), Memory>
    ensures { OnOk result (out.new ≡ out.old ++ integer_spelling value) }
{
    if let Ok(byte) = u8::try_from(value) {
        out.push(SMALL_INTEGER)?;
        return out.push(byte);
    }
    if let Ok(number) = i32::try_from(value) {
        out.push(INTEGER)?;
        return out.extend_from_slice(&number.to_be_bytes());
    }
    encode_big(out, u8::from(value < 0), value.unsigned_abs())
}

/// A sign, 0 or 1, and the fewest bytes of a magnitude, the lowest first.
fn encode_big(out: &mut ByteList, sign: u8, magnitude: u128) -> Result<(), Memory>
    ensures { OnOk result (out.new ≡ out.old ++ big_spelling sign magnitude) }
{
    let bytes = magnitude.to_le_bytes();
    let count = byte_count(magnitude);
    out.push(SMALL_BIG)?;
    out.push(count as u8)?;
    out.push(sign)?;
    out.extend_from_slice(&bytes[..count])
}

/// How many bytes a magnitude has without zeros at its high end.
fn byte_count(magnitude: u128) -> usize
    ensures value { result ≡ length (magnitude_bytes magnitude) }
    ensures within { result ≤ 16 }
{
    (128 - magnitude.leading_zeros() as usize).div_ceil(8)
}

fn encode_atom(out: &mut ByteList, name: &str) -> Result<(), Memory>
    requires { length (chars name.now) ≤ 255 }
    ensures { OnOk result (out.new ≡ out.old ++ atom_spelling (chars name.now)) }
{
    encode_text_head(out, name.len())?;
    out.extend_from_slice(name.as_bytes())
}

/// The tag of an atom and the number of its bytes.
fn encode_text_head(out: &mut ByteList, count: usize) -> Result<(), Memory>
    requires { count < 2 ^ 16 }
    ensures { OnOk result (out.new ≡ out.old ++ text_head count) }
{
    if count > 255 {
        out.push(ATOM_UTF8)?;
        return out.extend_from_slice(&(count as u16).to_be_bytes());
    }
    out.push(SMALL_ATOM_UTF8)?;
    out.push(count as u8)
}

fn encode_bits(out: &mut ByteList, bytes: &[u8], used: u8) -> Result<(), Memory>
    requires padded { IsPadded bytes.now used }
    requires short { length bytes.now < 2 ^ 32 }
    ensures { OnOk result (out.new ≡ out.old ++ bits_spelling (bits_of bytes.now used)) }
{
    if used == 8 {
        encode_head(out, BINARY, bytes.len())?;
        return out.extend_from_slice(bytes);
    }
    encode_head(out, BIT_BINARY, bytes.len())?;
    out.push(used)?;
    out.extend_from_slice(bytes)
}

/// Whether a list's elements are at most 65,535 integers from 0 to 255.
fn are_bytes(parts: &TermList) -> bool
    ensures { result ≡ are_bytes parts.now }
{
    if parts.len() > 65_535 {
        return false;
    }
    for index in 0..parts.len() {
        if parts.get(index).and_then(byte_of).is_none() {
            return false;
        }
    }
    true
}

/// The value of an integer from 0 to 255.
fn byte_of(term: &Term) -> Option<u8>
    ensures { result ≡ cond (is_byte term.now) (Some (byte_value term.now)) None }
{
    match term.node() {
        Node::Int(value) => u8::try_from(*value).ok(),
        _ => None,
    }
}

/// A list of bytes, as one byte for each element.
fn encode_string(out: &mut ByteList, parts: &TermList) -> Result<(), Memory>
    requires { are_bytes parts.now ≡ true }
    ensures { OnOk result (out.new ≡ out.old ++ (head STRING 2 (length parts.now) ++ map byte_value parts.now)) }
{
    out.push(STRING)?;
    out.extend_from_slice(&(parts.len() as u16).to_be_bytes())?;
    for index in 0..parts.len() {
        if let Some(byte) = parts.get(index).and_then(byte_of) {
            out.push(byte)?;
        }
    }
    Ok(())
}
