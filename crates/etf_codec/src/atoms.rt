ghost use Rattle.std.specs.Prelude.{◌≡◌, ◌≤◌, ◌<◌, ◌⊎◌, true, false, length, IfOk, IfErr};
ghost use Rattle.std.specs.Str.{chars};
ghost use Rattle.dets_term.specs.TermValue.{atom};
ghost use Rattle.etf_model.specs.Spelling.{name};
ghost use Rattle.etf_codec.specs.Reads.{ReadsWithin};
ghost use Rattle.etf_codec.specs.ReadTerms.{IsLeaf, IsAtomOf};

use crate::EtfFault;
use crate::cursor::Cursor;
use bstr::ByteSlice;
use dets_term::{Term, TermFault, Text, within_limits};
use std::alloc::Global;

/// How many characters an atom has at most.
const MAX_CHARACTERS: usize = 255;

/// The atom that begins at an offset, in UTF-8 or else in Latin-1, behind its length in so many bytes, at most four.
pub(crate) fn read_atom(
    alloc: Global,
    cursor: &mut Cursor<'_>,
    utf8: bool,
    size: u32,
    term: u64,
) -> Result<Term, EtfFault>
    requires { size ≤ 4 }
    ensures reads { ReadsWithin (name utf8 size) term cursor.old cursor.new result }
    ensures leaf { IfOk result IsLeaf }
{
    let bytes = cursor.sized(size)?;
    if utf8 {
        utf8_atom(alloc, bytes, term)
    } else {
        latin_1_atom(alloc, bytes, term)
    }
}

/// The atom of these characters in UTF-8. `BadAtom` where they are none or too many, `Memory` only where they are not.
fn utf8_atom(alloc: Global, bytes: &[u8], term: u64) -> Result<Term, EtfFault>
    ensures { IsAtomOf true bytes.now term result }
{
    match bytes.to_str() {
        Ok(text) => named(alloc, text, term),
        Err(_) => Err(EtfFault::BadAtom(term)),
    }
}

/// The atom of these characters in Latin-1. `BadAtom` where they are too many, `Memory` only where they are not.
fn latin_1_atom(alloc: Global, bytes: &[u8], term: u64) -> Result<Term, EtfFault>
    ensures { IsAtomOf false bytes.now term result }
{
    if bytes.len() > MAX_CHARACTERS {
        return Err(EtfFault::BadAtom(term));
    }
    let mut text = Text::new(alloc);
    for byte in bytes {
        text.push(char::from(*byte))?;
    }
    named(alloc, text.as_str(), term)
}

/// The atom of a text, `BadAtom` above 255 characters.
fn named(alloc: Global, text: &str, term: u64) -> Result<Term, EtfFault>
    ensures ok { IfOk result (λ t. (length (chars text.now) ≤ 255) × (t ≡ atom (chars text.now))) }
    ensures err { IfErr result (λ fault. ((length (chars text.now) ≤ 255) × (fault ≡ EtfFault.Memory))
        ⊎ ((255 < length (chars text.now)) × (fault ≡ EtfFault.BadAtom term))) }
{
    match Term::atom(alloc, text) {
        Err(TermFault::LongAtom) => Err(EtfFault::BadAtom(term)),
        made => Ok(within_limits(made)?),
    }
}
