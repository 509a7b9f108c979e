//! Integers of one and of four bytes.
ghost use Rattle.std.specs.Prelude.{◌≡◌, ℕ, pos, IfOk};
ghost use Rattle.dets_term.specs.TermValue.{integer};
ghost use Rattle.etf_model.specs.Format.{byte, changed};
ghost use Rattle.etf_model.specs.Layout.{signed_32};
ghost use Rattle.etf_model.specs.Spelling.{number};
ghost use Rattle.etf_codec.specs.Reads.{Reads};
ghost use Rattle.etf_codec.specs.ReadTerms.{IsLeaf};

use crate::EtfFault;
use crate::cursor::Cursor;
use dets_term::Term;

/// An integer of one byte.
pub(crate) fn small_integer(cursor: &mut Cursor<'_>) -> Result<Term, EtfFault>
    ensures reads { (term : ℕ) → Reads (changed byte (λ x. integer (pos x))) term cursor.old cursor.new result }
    ensures leaf { IfOk result IsLeaf }
{
    let value = cursor.byte()?;
    Ok(Term::int(i128::from(value)))
}

/// An integer of four bytes.
pub(crate) fn integer_32(cursor: &mut Cursor<'_>) -> Result<Term, EtfFault>
    ensures reads { (term : ℕ) → Reads (changed (number 4) (λ n. integer (signed_32 n))) term cursor.old cursor.new result }
    ensures leaf { IfOk result IsLeaf }
{
    let value = cursor.number(4)?;
    Ok(Term::int(from_signed_32(value)))
}

/// A number of 32 bits in two's complement.
fn from_signed_32(value: u32) -> i128
    ensures { result ≡ signed_32 value }
{
    if value < 1 << 31 {
        i128::from(value)
    } else {
        i128::from(value) - (1 << 32)
    }
}
