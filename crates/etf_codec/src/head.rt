//! What stands behind a tag.
ghost use Rattle.std.specs.Prelude.{ℕ, ◌≤◌};
ghost use Rattle.etf_model.specs.Spelling.{part_at, tail_at, tuple_of, list_of, map_format, big_integer, body_of};
ghost use Rattle.etf_codec.specs.Heads.{HeadReads, HeadFits};

use crate::EtfFault;
use crate::big_integer::BigInteger;
use crate::cursor::Cursor;
use crate::frame::Frame;
use crate::leaves::{read_leaf, read_no_tail};
use crate::strings::read_string;
use dets_term::{MapPairs, PairList, Term, TermList, within_limits};
use etf_model::tags::{LARGE_BIG, LARGE_TUPLE, LIST, MAP, SMALL_BIG, SMALL_TUPLE, STRING};
use std::alloc::Global;

/// A term, or what it begins with.
#[derive(Drop)]
pub(crate) enum Head {
    Whole(Term),
    /// It has parts, which are read next.
    Open(Frame),
    /// The bytes of its magnitude are read next.
    Number(BigInteger),
}

/// What follows the tag of the term that begins at an offset, up to its first part. So many levels are left below it.
pub(crate) fn read_head(
    alloc: Global,
    cursor: &mut Cursor<'_>,
    tag: u8,
    levels: u32,
    start: u64,
) -> Result<Head, EtfFault>
    ensures reads { HeadReads (body_of levels tag) levels start cursor.old cursor.new result }
    ensures fits { HeadFits tag levels result }
{
    match tag {
        SMALL_TUPLE => tuple_head(alloc, cursor, 1, levels, start),
        LARGE_TUPLE => tuple_head(alloc, cursor, 4, levels, start),
        LIST => list_head(alloc, cursor, levels, start),
        MAP => map_head(alloc, cursor, levels, start),
        STRING => Ok(Head::Whole(read_string(alloc, cursor, levels, start)?)),
        SMALL_BIG => integer_head(cursor, 1, start),
        LARGE_BIG => integer_head(cursor, 4, start),
        _ => Ok(Head::Whole(read_leaf(alloc, cursor, tag, start)?)),
    }
}

fn tuple_head(
    alloc: Global,
    cursor: &mut Cursor<'_>,
    size: u32,
    levels: u32,
    start: u64,
) -> Result<Head, EtfFault>
    requires { size ≤ 4 }
    ensures reads { HeadReads (tuple_of (part_at levels) levels size) levels start cursor.old cursor.new result }
    ensures fits { HeadFits SMALL_TUPLE levels result }
{
    let count = cursor.count(size, levels, start)?;
    if count == 0 {
        let empty = within_limits(Term::tuple(TermList::new(alloc)))?;
        return Ok(Head::Whole(empty));
    }
    Ok(Head::Open(Frame::Element(count - 1, TermList::new(alloc))))
}

fn list_head(
    alloc: Global,
    cursor: &mut Cursor<'_>,
    levels: u32,
    start: u64,
) -> Result<Head, EtfFault>
    ensures reads { HeadReads (list_of (part_at levels) (tail_at levels) levels) levels start cursor.old cursor.new result }
    ensures fits { HeadFits LIST levels result }
{
    let count = cursor.count(4, levels, start)?;
    if count == 0 {
        return Ok(Head::Whole(read_no_tail(alloc, cursor)?));
    }
    Ok(Head::Open(Frame::Item(count - 1, TermList::new(alloc))))
}

fn map_head(
    alloc: Global,
    cursor: &mut Cursor<'_>,
    levels: u32,
    start: u64,
) -> Result<Head, EtfFault>
    ensures reads { HeadReads (map_format (part_at levels) levels) levels start cursor.old cursor.new result }
    ensures fits { HeadFits MAP levels result }
{
    let count = cursor.count(4, levels, start)?;
    if count == 0 {
        let empty = within_limits(Term::map(PairList::new(alloc)))?;
        return Ok(Head::Whole(empty));
    }
    Ok(Head::Open(Frame::Key(count - 1, MapPairs::new(alloc))))
}

fn integer_head(cursor: &mut Cursor<'_>, size: u32, start: u64) -> Result<Head, EtfFault>
    requires { size ≤ 4 }
    ensures reads { (levels : ℕ) → HeadReads (big_integer size) levels start cursor.old cursor.new result }
    ensures fits { (levels : ℕ) → HeadFits SMALL_BIG levels result }
{
    let length = cursor.number(size)?;
    let sign = cursor.byte()?;
    Ok(Head::Number(BigInteger {
        start,
        sign,
        length,
        index: 0,
        magnitude: 0,
    }))
}
