//! Decoding of spellings.
ghost use Rattle.std.specs.Prelude.{ℕ, IsErrOf};
ghost use Rattle.etf_model.specs.Decoding.{IsDecoding};

use crate::EtfFault;
use crate::cursor::Cursor;
use crate::term_reader::TermReader;
use dets_term::Term;
use std::alloc::Global;

/// The term that stands in front of some bytes, and how many bytes spell it. Bytes behind them are not looked at.
///
/// `Short` where the bytes end before the term does and break no rule; else the fault of the first byte that breaks a
/// rule. The room that is taken is bounded by the bytes that are there, whatever number they claim.
pub fn decode(alloc: Global, bytes: &[u8]) -> Result<(Term, usize), EtfFault>
    ensures decodes { IsDecoding bytes.now result }
    ensures never_long { (at : ℕ) → ¬ IsErrOf result (EtfFault.LongTerm at) }
{
    let mut cursor = Cursor::new(0, bytes);
    let mut reader = TermReader::new(alloc);
    let term = reader.read(alloc, &mut cursor)?;
    Ok((term, cursor.offset() as usize))
}
