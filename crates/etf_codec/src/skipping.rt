ghost use Rattle.std.specs.Prelude.{ℕ, ◌≤◌, ◌+◌, ◌*◌, ◌<◌, ◌^◌, IfErr};
ghost use Rattle.etf_model.specs.Skipping.{has_layout, gap, sized_gap, node, at_node, reference, parts, counted, skip_body, skipped_at, SkipsBy, IsSkipFault};
ghost use Rattle.etf_model.specs.declared.fault.EtfFault.TheVariants.{Unsupported};
ghost use Rattle.etf_codec.specs.Reads.{Reads, ReadsAs, behind_tag};

use crate::EtfFault;
use crate::cursor::Cursor;
use etf_model::tags::{
    ATOM, ATOM_UTF8, BINARY, BIT_BINARY, INTEGER, LARGE_BIG, LARGE_TUPLE, LIST, MAP, NEW_FLOAT,
    NEW_PID, NEW_PORT, NEW_REFERENCE, NEWER_REFERENCE, NIL, PID, PORT, SMALL_ATOM, SMALL_ATOM_UTF8,
    SMALL_BIG, SMALL_INTEGER, SMALL_TUPLE, STRING, V4_PORT,
};

/// How many levels a term that is passed over has at most.
const MAX_LEVELS: u32 = 256;

/// The length of the term that begins the bytes with its tag. It takes no memory.
pub fn skip(bytes: &[u8]) -> Result<usize, EtfFault>
    ensures skips { SkipsBy bytes.now result }
    ensures faults { IfErr result IsSkipFault }
{
    let mut cursor = Cursor::new(0, bytes);
    skip_term(&mut cursor, MAX_LEVELS)?;
    Ok(cursor.offset() as usize)
}

/// Passes over a term with so many levels.
#[cycle(skip)]
fn skip_term(cursor: &mut Cursor, levels: u32) -> Result<(), EtfFault>
    ensures { (term : ℕ) → Reads (skipped_at levels) term cursor.old cursor.new result }
{
    let at = cursor.offset();
    let tag = cursor.byte()?;
    if levels == 0 {
        return Err(EtfFault::Depth(at));
    }
    skip_tagged(cursor, levels - 1, tag, at)
}

/// Passes over what follows the tag at an offset, with so many levels below it.
#[cycle(skip)]
fn skip_tagged(cursor: &mut Cursor, levels: u32, tag: u8, at: u64) -> Result<(), EtfFault>
    ensures { ReadsAs (behind_tag (has_layout tag) (Unsupported at tag) (skip_body (skipped_at levels) tag) at cursor.old) cursor.new result }
{
    match tag {
        SMALL_INTEGER => skip_bytes(cursor, 1),
        INTEGER => skip_bytes(cursor, 4),
        NEW_FLOAT => skip_bytes(cursor, 8),
        SMALL_BIG => skip_sized(cursor, 1, 1),
        LARGE_BIG => skip_sized(cursor, 4, 1),
        ATOM => skip_sized(cursor, 2, 0),
        SMALL_ATOM => skip_sized(cursor, 1, 0),
        ATOM_UTF8 => skip_sized(cursor, 2, 0),
        SMALL_ATOM_UTF8 => skip_sized(cursor, 1, 0),
        STRING => skip_sized(cursor, 2, 0),
        BINARY => skip_sized(cursor, 4, 0),
        BIT_BINARY => skip_sized(cursor, 4, 1),
        NIL => Ok(()),
        SMALL_TUPLE => skip_counted(cursor, levels, 1, 1, 0),
        LARGE_TUPLE => skip_counted(cursor, levels, 4, 1, 0),
        LIST => skip_counted(cursor, levels, 4, 1, 1),
        MAP => skip_counted(cursor, levels, 4, 2, 0),
        PID => skip_at_node(cursor, 9),
        NEW_PID => skip_at_node(cursor, 12),
        PORT => skip_at_node(cursor, 5),
        NEW_PORT => skip_at_node(cursor, 8),
        V4_PORT => skip_at_node(cursor, 12),
        NEW_REFERENCE => skip_reference(cursor, 1),
        NEWER_REFERENCE => skip_reference(cursor, 4),
        _ => Err(EtfFault::Unsupported(at, tag)),
    }
}

/// Passes over a number of so many bytes, for each one so many terms, and so many more.
#[cycle(skip)]
fn skip_counted(
    cursor: &mut Cursor,
    levels: u32,
    size: u32,
    each: u64,
    extra: u64,
) -> Result<(), EtfFault>
    requires size { size ≤ 4 }
    requires each { each ≤ 2 }
    requires extra { extra ≤ 1 }
    ensures { (term : ℕ) → Reads (counted (skipped_at levels) size each extra) term cursor.old cursor.new result }
{
    let count = u64::from(cursor.number(size)?);
    skip_parts(cursor, levels, each * count + extra)
}

/// Passes over so many terms.
#[cycle(skip)]
fn skip_parts(cursor: &mut Cursor, levels: u32, count: u64) -> Result<(), EtfFault>
    ensures { (term : ℕ) → Reads (parts (skipped_at levels) count) term cursor.old cursor.new result }
{
    for _ in 0..count {
        skip_term(cursor, levels)?;
    }
    Ok(())
}

/// Passes over so many bytes.
fn skip_bytes(cursor: &mut Cursor, count: u64) -> Result<(), EtfFault>
    ensures { (term : ℕ) → Reads (gap count) term cursor.old cursor.new result }
{
    cursor.take(count as usize)?;
    Ok(())
}

/// Passes over a number of so many bytes, as many bytes as it says and so many more.
fn skip_sized(cursor: &mut Cursor, size: u32, extra: u64) -> Result<(), EtfFault>
    requires size { size ≤ 4 }
    requires extra { extra ≤ 1 }
    ensures { (term : ℕ) → Reads (sized_gap size extra) term cursor.old cursor.new result }
{
    let count = u64::from(cursor.number(size)?);
    skip_bytes(cursor, count + extra)
}

/// Passes over the name of a node.
fn skip_node(cursor: &mut Cursor) -> Result<(), EtfFault>
    ensures { (term : ℕ) → Reads node term cursor.old cursor.new result }
{
    let at = cursor.offset();
    match cursor.byte()? {
        ATOM => skip_sized(cursor, 2, 0),
        ATOM_UTF8 => skip_sized(cursor, 2, 0),
        SMALL_ATOM => skip_sized(cursor, 1, 0),
        SMALL_ATOM_UTF8 => skip_sized(cursor, 1, 0),
        tag => Err(EtfFault::Unsupported(at, tag)),
    }
}

/// Passes over a node and so many bytes behind it.
fn skip_at_node(cursor: &mut Cursor, count: u64) -> Result<(), EtfFault>
    ensures { (term : ℕ) → Reads (at_node count) term cursor.old cursor.new result }
{
    skip_node(cursor)?;
    skip_bytes(cursor, count)
}

/// Passes over a reference whose creation has so many bytes.
fn skip_reference(cursor: &mut Cursor, creation: u64) -> Result<(), EtfFault>
    requires { creation ≤ 4 }
    ensures { (term : ℕ) → Reads (reference creation) term cursor.old cursor.new result }
{
    let count = u64::from(cursor.number(2)?);
    skip_at_node(cursor, creation + 4 * count)
}
