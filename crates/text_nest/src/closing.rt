//! The terms that closing marks make of what is open.
ghost use Rattle.std.specs.Prelude.{◌≡◌, ◌<◌, ◌≤◌, ◌+◌, ◌^◌, ℕ, [], ◌∷◌, ◌++◌, length, take, Some, None, IfOk, flat_map};
ghost use Rattle.dets_term.specs.TermValue.{TermValue, nil, tuple, bits, chain, map_of};
ghost use Rattle.dets_term.specs.BitString.{byte_bits, bits_of, MayUse};
ghost use Rattle.dets_term.specs.IsTerm.{AreAscending};
ghost use Rattle.dets_term.specs.Pairs.{keys, placed};
ghost use Rattle.dets_term.specs.Parts.{deepest, deepest_of_pairs};
ghost use Rattle.text_model.specs.Nest.{in_value, in_bits, last_part, brace_term, list_term, bits_term};
ghost use Rattle.text_nest.specs.NestView.{frame_of, place_of};
ghost use Rattle.text_nest.specs.Fits.{FrameFits, PartFits, LastFits, PairsFit, PartsFit};

use crate::Memory;
use crate::nest::{NestPlace, Open};
use dets_term::{ByteList, MapPairs, Term, TermList, within_limits};
use std::alloc::Global;

/// The tuple or the map that a brace closes.
pub(crate) fn brace_term(
    alloc: Global,
    begun: Open,
    place: NestPlace,
) -> Result<Option<Term>, Memory>
    requires begun { FrameFits (frame_of begun) }
    requires part { LastFits (last_part (place_of place)) }
    ensures { IfOk result (λ term. term ≡ brace_term (frame_of begun) (last_part (place_of place))) }
{
    match begun {
        Open::Tuple(parts) => match place {
            NestPlace::Opened => Ok(Some(tuple_of(parts)?)),
            NestPlace::After(_, part) => Ok(Some(tuple_with(parts, part)?)),
            _ => Ok(None),
        },
        Open::Map(pairs, key) => match key {
            None => match place {
                NestPlace::Opened => Ok(Some(map_of(alloc, pairs)?)),
                _ => Ok(None),
            },
            Some(key) => match place {
                NestPlace::After(_, value) => Ok(Some(map_with(alloc, pairs, key, value)?)),
                _ => Ok(None),
            },
        },
        _ => Ok(None),
    }
}

/// The list that a bracket closes.
pub(crate) fn list_term(
    alloc: Global,
    begun: Open,
    place: NestPlace,
) -> Result<Option<Term>, Memory>
    requires begun { FrameFits (frame_of begun) }
    requires part { LastFits (last_part (place_of place)) }
    ensures { IfOk result (λ term. term ≡ list_term (frame_of begun) (last_part (place_of place))) }
{
    match begun {
        Open::List(parts, false) => match place {
            NestPlace::Opened => Ok(Some(list_of(TermList::new(alloc))?)),
            NestPlace::After(_, part) => Ok(Some(list_with(parts, part)?)),
            _ => Ok(None),
        },
        Open::List(parts, true) => match place {
            NestPlace::After(_, tail) => Ok(Some(joined(alloc, parts, tail)?)),
            _ => Ok(None),
        },
        _ => Ok(None),
    }
}

/// The bit string that its mark closes.
pub(crate) fn bits_term(begun: Open, place: NestPlace) -> Result<Option<Term>, Memory>
    requires { FrameFits (frame_of begun) }
    ensures { IfOk result (λ term. term ≡ bits_term (frame_of begun) (place_of place)) }
{
    match begun {
        Open::Bits(bytes) => closed_bits(bytes, place),
        _ => Ok(None),
    }
}

fn tuple_of(parts: TermList) -> Result<Term, Memory>
    requires { PartsFit parts }
    ensures { IfOk result (λ term. term ≡ tuple (chain parts nil)) }
{
    within_limits(Term::tuple(parts))
}

fn tuple_with(parts: TermList, part: Term) -> Result<Term, Memory>
    requires parts { (deepest parts < 256) × (length parts < 2 ^ 31) }
    requires part { PartFits part }
    ensures { IfOk result (λ term. term ≡ tuple (chain (parts ++ part ∷ []) nil)) }
{
    let mut parts = parts;
    parts.push(part)?;
    tuple_of(parts)
}

/// The list of these parts.
pub(crate) fn list_of(parts: TermList) -> Result<Term, Memory>
    requires { PartsFit parts }
    ensures { IfOk result (λ term. term ≡ chain parts nil) }
{
    within_limits(Term::list(parts))
}

fn list_with(parts: TermList, part: Term) -> Result<Term, Memory>
    requires parts { (deepest parts < 256) × (length parts < 2 ^ 31) }
    requires part { PartFits part }
    ensures { IfOk result (λ term. term ≡ chain (parts ++ part ∷ []) nil) }
{
    let mut parts = parts;
    parts.push(part)?;
    list_of(parts)
}

/// A list with a tail, which is joined where it is a list itself.
fn joined(alloc: Global, parts: TermList, tail: Term) -> Result<Term, Memory>
    requires parts { (deepest parts < 256) × (length parts < 2 ^ 31) }
    requires tail { PartFits tail }
    ensures { IfOk result (λ term. term ≡ chain parts tail) }
{
    within_limits(Term::list_with_tail(alloc, parts, tail))
}

fn map_of(alloc: Global, pairs: MapPairs) -> Result<Term, Memory>
    requires { PairsFit pairs }
    ensures { IfOk result (λ term. term ≡ map_of pairs) }
{
    let pairs = pairs.into_pairs(alloc)?;
    within_limits(Term::map(pairs))
}

fn map_with(alloc: Global, pairs: MapPairs, key: Term, value: Term) -> Result<Term, Memory>
    requires pairs { FrameFits (in_value pairs key) }
    requires value { PartFits value }
    ensures { IfOk result (λ term. term ≡ map_of (placed (key, value) pairs)) }
{
    let mut pairs = pairs;
    pairs.insert(key, value)?;
    map_of(alloc, pairs)
}

/// A bit string of these bytes, and of the segment that its mark follows.
fn closed_bits(bytes: ByteList, place: NestPlace) -> Result<Option<Term>, Memory>
    requires { length bytes < 2 ^ 31 }
    ensures { IfOk result (λ term. term ≡ bits_term (in_bits (flat_map byte_bits bytes)) (place_of place)) }
{
    match place {
        NestPlace::Opened => Ok(Some(whole_bits(bytes)?)),
        NestPlace::Segment => Ok(Some(whole_bits(bytes)?)),
        NestPlace::Number(_, value) => Ok(Some(bits_with(bytes, value, 8)?)),
        NestPlace::Sized(last) => Ok(Some(bits_with(bytes, last.byte(), last.count)?)),
        NestPlace::Want => Ok(None),
        NestPlace::After(_, _) => Ok(None),
        NestPlace::Colon(_, _) => Ok(None),
        NestPlace::Stopped(_) => Ok(None),
    }
}

/// A bit string of whole bytes.
fn whole_bits(bytes: ByteList) -> Result<Term, Memory>
    requires { length bytes < 2 ^ 31 }
    ensures { IfOk result (λ term. term ≡ bits (flat_map byte_bits bytes)) }
{
    within_limits(Term::bits(bytes, 8))
}

/// A bit string of these bytes and the first bits of one more.
fn bits_with(bytes: ByteList, byte: u8, count: u8) -> Result<Term, Memory>
    requires bytes { length bytes < 2 ^ 31 }
    requires count { (1 ≤ count) × (count ≤ 8) }
    ensures { IfOk result (λ term. term ≡ bits (flat_map byte_bits bytes ++ take count (byte_bits byte))) }
{
    let mut bytes = bytes;
    bytes.push(byte)?;
    within_limits(Term::bits(bytes, count))
}
