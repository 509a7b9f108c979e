//! The key of a block with one object, cut out of the payload that spells it.
ghost use Rattle.std.specs.Prelude.{◌∷◌, ◌≤◌, ℕ, List, IfSome, IfNone};
ghost use Rattle.key_block.specs.Single.{IsSingleKey, Measures, ArePlainFront, IsKeyAmong};

use etf_model::tags::{
    BINARY, INTEGER, LIST, NIL, SMALL_ATOM_UTF8, SMALL_INTEGER, SMALL_TUPLE, VERSION,
};
use std::str;

/// What stands in front of the only object of a list, up to the number of its elements.
const FRONT: [u8; 7] = [VERSION, LIST, 0, 0, 0, 1, SMALL_TUPLE];

/// The canonical spelling of the key, without the byte 131 in front, where the payload is that of a list of one object whose
/// elements are all plain. It builds no term and takes no memory. `None` just for the other payloads, of which `unpack` tells.
pub fn single_key(keypos: u32, payload: &[u8]) -> Option<&[u8]>
    ensures found { IfSome result (λ bytes. IsSingleKey keypos payload.now bytes.now) }
    ensures none { IfNone result ((bytes : List ℕ) → IsSingleKey keypos payload.now bytes → ⊥) }
{
    let object = payload.strip_prefix(&FRONT)?;
    let (arity, rest) = object.split_first()?;
    let elements = rest.strip_suffix(&[NIL])?;
    key_among(keypos, u32::from(*arity), elements)
}

/// The element at a place, counted from 1, where the bytes are so many plain ones.
fn key_among(keypos: u32, arity: u32, elements: &[u8]) -> Option<&[u8]>
    requires { arity ≤ 255 }
    ensures found { IfSome result (λ bytes. IsKeyAmong keypos arity elements.now bytes.now) }
    ensures none { IfNone result ((bytes : List ℕ) → IsKeyAmong keypos arity elements.now bytes → ⊥) }
{
    if keypos == 0 || keypos > arity {
        return None;
    }
    let from = behind_plain(keypos - 1, elements)?;
    let (key, others) = from.split_at(plain_length(from)?);
    match behind_plain(arity - keypos, others)? {
        [] => Some(key),
        [_, ..] => None,
    }
}

/// What follows so many plain terms.
fn behind_plain(count: u32, bytes: &[u8]) -> Option<&[u8]>
    ensures found { IfSome result (λ rest. ArePlainFront count bytes.now rest.now) }
    ensures none { IfNone result ((rest : List ℕ) → ArePlainFront count bytes.now rest → ⊥) }
{
    if count == 0 {
        return Some(bytes);
    }
    let (_, others) = bytes.split_at(plain_length(bytes)?);
    behind_plain(count - 1, others)
}

/// The length of the canonical spelling of the plain term in front.
fn plain_length(bytes: &[u8]) -> Option<usize>
    ensures { Measures bytes.now result }
{
    let (tag, rest) = bytes.split_first()?;
    match *tag {
        NIL => Some(1),
        SMALL_INTEGER => small_length(rest),
        INTEGER => integer_length(rest),
        SMALL_ATOM_UTF8 => atom_length(rest),
        BINARY => binary_length(rest),
        _ => None,
    }
}

/// That of an integer of one byte behind its tag.
fn small_length(rest: &[u8]) -> Option<usize>
    ensures { Measures (SMALL_INTEGER ∷ rest.now) result }
{
    match rest {
        [] => None,
        [_, ..] => Some(2),
    }
}

/// That of another one behind its tag. One of 0 to 255 would have been spelled shorter.
fn integer_length(rest: &[u8]) -> Option<usize>
    ensures { Measures (INTEGER ∷ rest.now) result }
{
    let (number, _) = rest.split_first_chunk::<4>()?;
    if u32::from_be_bytes(*number) <= 255 {
        return None;
    }
    Some(5)
}

/// That of an atom behind its tag.
fn atom_length(rest: &[u8]) -> Option<usize>
    ensures { Measures (SMALL_ATOM_UTF8 ∷ rest.now) result }
{
    let (number, others) = rest.split_first()?;
    let count = *number as usize;
    if others.len() < count {
        return None;
    }
    match str::from_utf8(&others[..count]) {
        Ok(_) => Some(2 + count),
        Err(_) => None,
    }
}

/// That of whole bytes behind their tag.
fn binary_length(rest: &[u8]) -> Option<usize>
    ensures { Measures (BINARY ∷ rest.now) result }
{
    let (number, others) = rest.split_first_chunk::<4>()?;
    let count = u32::from_be_bytes(*number) as usize;
    if others.len() < count {
        return None;
    }
    Some(5 + count)
}
