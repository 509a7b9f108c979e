//! What a begun term becomes with each of its parts.
ghost use Rattle.std.specs.Prelude.{◌≡◌, ℕ, ◌<◌, ◌≤◌};
ghost use Rattle.etf_codec.specs.Begun.{FrameFits, PartFits};
ghost use Rattle.etf_codec.specs.Joins.{JoinsTo, JoinsWithin};
ghost use Rattle.etf_codec.specs.declared.frame.Frame.TheVariants.{Element, Item, Tail, Key, Value};

use crate::EtfFault;
use crate::frame::{Begun, Frame};
use dets_term::{MapPairs, Term, TermList, within_limits};
use std::alloc::Global;

/// A begun term with one more part.
#[derive(Drop)]
pub(crate) enum Joined {
    /// It is whole, and began at this offset.
    Whole(u64, Term),
    /// It has a next part.
    Open(Begun),
}

/// Joins a part that begins at an offset to its term. `RepeatedKey` for a key that stands there already.
pub(crate) fn join(alloc: Global, begun: Begun, at: u64, part: Term) -> Result<Joined, EtfFault>
    requires frame { FrameFits begun.frame 255 }
    requires part { PartFits begun.frame 255 part }
    ensures joins { JoinsTo begun at part result }
    ensures within { (levels : ℕ) → levels ≤ 255 → FrameFits begun.frame levels → PartFits begun.frame levels part
        → JoinsWithin begun levels result }
{
    let Begun { start, frame } = begun;
    match frame {
        Frame::Element(ahead, parts) => join_element(start, ahead, parts, at, part),
        Frame::Item(ahead, parts) => join_item(start, ahead, parts, at, part),
        Frame::Tail(parts) => join_tail(alloc, start, parts, at, part),
        Frame::Key(ahead, pairs) => join_key(start, ahead, pairs, at, part),
        Frame::Value(ahead, pairs, key) => join_value(alloc, start, ahead, pairs, key, at, part),
    }
}

fn join_element(
    start: u64,
    ahead: u32,
    parts: TermList,
    at: u64,
    part: Term,
) -> Result<Joined, EtfFault>
    requires frame { FrameFits (Element ahead parts) 255 }
    requires part { PartFits (Element ahead parts) 255 part }
    ensures joins { JoinsTo (record { start = start; frame = Element ahead parts }) at part result }
    ensures within { (levels : ℕ) → levels ≤ 255 → FrameFits (Element ahead parts) levels
        → PartFits (Element ahead parts) levels part
        → JoinsWithin (record { start = start; frame = Element ahead parts }) levels result }
{
    let mut parts = parts;
    parts.push(part)?;
    if ahead == 0 {
        let tuple = within_limits(Term::tuple(parts))?;
        return Ok(Joined::Whole(start, tuple));
    }
    let frame = Frame::Element(ahead - 1, parts);
    Ok(Joined::Open(Begun { start, frame }))
}

fn join_item(
    start: u64,
    ahead: u32,
    parts: TermList,
    at: u64,
    part: Term,
) -> Result<Joined, EtfFault>
    ensures joins { JoinsTo (record { start = start; frame = Item ahead parts }) at part result }
    ensures within { (levels : ℕ) → levels ≤ 255 → FrameFits (Item ahead parts) levels
        → PartFits (Item ahead parts) levels part
        → JoinsWithin (record { start = start; frame = Item ahead parts }) levels result }
{
    let mut parts = parts;
    parts.push(part)?;
    if ahead == 0 {
        let frame = Frame::Tail(parts);
        return Ok(Joined::Open(Begun { start, frame }));
    }
    let frame = Frame::Item(ahead - 1, parts);
    Ok(Joined::Open(Begun { start, frame }))
}

fn join_tail(
    alloc: Global,
    start: u64,
    parts: TermList,
    at: u64,
    part: Term,
) -> Result<Joined, EtfFault>
    requires frame { FrameFits (Tail parts) 255 }
    requires part { PartFits (Tail parts) 255 part }
    ensures joins { JoinsTo (record { start = start; frame = Tail parts }) at part result }
    ensures within { (levels : ℕ) → levels ≤ 255 → FrameFits (Tail parts) levels → PartFits (Tail parts) levels part
        → JoinsWithin (record { start = start; frame = Tail parts }) levels result }
{
    let list = within_limits(Term::list_with_tail(alloc, parts, part))?;
    Ok(Joined::Whole(start, list))
}

fn join_key(start: u64, ahead: u32, pairs: MapPairs, at: u64, key: Term) -> Result<Joined, EtfFault>
    ensures joins { JoinsTo (record { start = start; frame = Key ahead pairs }) at key result }
    ensures within { (levels : ℕ) → levels ≤ 255 → FrameFits (Key ahead pairs) levels → PartFits (Key ahead pairs) levels key
        → JoinsWithin (record { start = start; frame = Key ahead pairs }) levels result }
{
    if pairs.has_key(&key) {
        return Err(EtfFault::RepeatedKey(at));
    }
    let frame = Frame::Value(ahead, pairs, key);
    Ok(Joined::Open(Begun { start, frame }))
}

fn join_value(
    alloc: Global,
    start: u64,
    ahead: u32,
    pairs: MapPairs,
    key: Term,
    at: u64,
    value: Term,
) -> Result<Joined, EtfFault>
    requires frame { FrameFits (Value ahead pairs key) 255 }
    requires part { PartFits (Value ahead pairs key) 255 value }
    ensures joins { JoinsTo (record { start = start; frame = Value ahead pairs key }) at value result }
    ensures within { (levels : ℕ) → levels ≤ 255 → FrameFits (Value ahead pairs key) levels
        → PartFits (Value ahead pairs key) levels value
        → JoinsWithin (record { start = start; frame = Value ahead pairs key }) levels result }
{
    let mut pairs = pairs;
    pairs.insert(key, value)?;
    if ahead == 0 {
        let pairs = pairs.into_pairs(alloc)?;
        let map = within_limits(Term::map(pairs))?;
        return Ok(Joined::Whole(start, map));
    }
    let frame = Frame::Key(ahead - 1, pairs);
    Ok(Joined::Open(Begun { start, frame }))
}
