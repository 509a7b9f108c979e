//! Tags, and the terms that may begin with them.
ghost use Rattle.std.specs.Prelude.{◌≡◌, ◌<◌, ◌==◌, cond, length, IfOk};
ghost use Rattle.etf_model.specs.Layout.{is_known, begins_tail};
ghost use Rattle.etf_codec.specs.Tags.{TagReads, BeginsTail};
ghost use Rattle.etf_codec.specs.declared.tags.Role.TheVariants.{Outermost, Part, Tail};

use crate::EtfFault;
use crate::cursor::Cursor;
use etf_model::tags::{
    ATOM, ATOM_UTF8, BINARY, BIT_BINARY, COMPRESSED, INTEGER, LARGE_BIG, LARGE_TUPLE, LIST, MAP,
    NIL, SMALL_ATOM, SMALL_ATOM_UTF8, SMALL_BIG, SMALL_INTEGER, SMALL_TUPLE, STRING,
};

/// What a term is in its spelling.
#[derive(Clone, Copy, PartialEq, Eq)]
pub(crate) enum Role {
    /// The outermost one.
    Outermost,
    /// An element, a key or a value.
    Part,
    /// The tail of a list with elements.
    Tail,
}

/// The tag of a term. `Unsupported` where no term of this role begins with it, `Compressed` for 80 in front.
pub(crate) fn read_tag(cursor: &mut Cursor<'_>, role: Role) -> Result<u8, EtfFault>
    ensures reads { TagReads role cursor.old cursor.new result }
    ensures tail { BeginsTail role result }
    ensures forward { IfOk result (λ tag. length cursor.new.left < length cursor.old.left) }
{
    match role {
        Role::Outermost => outermost_tag(cursor),
        Role::Part => part_tag(cursor),
        Role::Tail => tail_tag(cursor),
    }
}

fn outermost_tag(cursor: &mut Cursor<'_>) -> Result<u8, EtfFault>
    ensures reads { TagReads Outermost cursor.old cursor.new result }
    ensures forward { IfOk result (λ tag. length cursor.new.left < length cursor.old.left) }
{
    let start = cursor.offset();
    let tag = cursor.byte()?;
    if !is_known_tag(tag) {
        return Err(unknown_tag(start, tag));
    }
    Ok(tag)
}

fn part_tag(cursor: &mut Cursor<'_>) -> Result<u8, EtfFault>
    ensures reads { TagReads Part cursor.old cursor.new result }
    ensures forward { IfOk result (λ tag. length cursor.new.left < length cursor.old.left) }
{
    let start = cursor.offset();
    let tag = cursor.byte()?;
    if !is_known_tag(tag) {
        return Err(EtfFault::Unsupported(start, tag));
    }
    Ok(tag)
}

fn tail_tag(cursor: &mut Cursor<'_>) -> Result<u8, EtfFault>
    ensures reads { TagReads Tail cursor.old cursor.new result }
    ensures tail { BeginsTail Tail result }
    ensures forward { IfOk result (λ tag. length cursor.new.left < length cursor.old.left) }
{
    let start = cursor.offset();
    let tag = cursor.byte()?;
    if !may_begin_tail(tag) {
        return Err(EtfFault::Unsupported(start, tag));
    }
    Ok(tag)
}

/// Whether a tag begins a term.
pub(crate) fn is_known_tag(tag: u8) -> bool
    ensures { result ≡ is_known tag }
{
    matches!(
        tag,
        SMALL_INTEGER
            | INTEGER
            | SMALL_BIG
            | LARGE_BIG
            | ATOM
            | SMALL_ATOM
            | ATOM_UTF8
            | SMALL_ATOM_UTF8
            | SMALL_TUPLE
            | LARGE_TUPLE
            | NIL
            | STRING
            | LIST
            | BINARY
            | BIT_BINARY
            | MAP
    )
}

/// Whether a tag begins the tail of a list with elements.
pub(crate) fn may_begin_tail(tag: u8) -> bool
    ensures { result ≡ begins_tail tag }
{
    is_known_tag(tag) && tag != STRING && tag != LIST
}

/// The fault of a tag that no outermost term begins with: 80 begins a compressed one.
pub(crate) fn unknown_tag(start: u64, tag: u8) -> EtfFault
    ensures { result ≡ cond (tag == COMPRESSED) (EtfFault.Compressed start) (EtfFault.Unsupported start tag) }
{
    if tag == COMPRESSED {
        EtfFault::Compressed(start)
    } else {
        EtfFault::Unsupported(start, tag)
    }
}
