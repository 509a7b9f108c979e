//! Bit strings.
ghost use Rattle.std.specs.Prelude.{◌≡◌, ◌<◌, ◌^◌, ℕ, length, IfOk, IfErr};
ghost use Rattle.dets_term.specs.BitString.{bits_of, MayUse};
ghost use Rattle.dets_term.specs.TermValue.{bits};
ghost use Rattle.etf_model.specs.Layout.{may_use};
ghost use Rattle.etf_model.specs.Spelling.{binary, bit_binary};
ghost use Rattle.etf_codec.specs.Reads.{ReadsWithin};
ghost use Rattle.etf_codec.specs.ReadTerms.{IsLeaf};

use crate::EtfFault;
use crate::cursor::Cursor;
use dets_term::{ByteList, Term, within_limits};
use std::alloc::Global;

/// A bit string of whole bytes.
pub(crate) fn read_binary(alloc: Global, cursor: &mut Cursor<'_>) -> Result<Term, EtfFault>
    ensures reads { (term : ℕ) → ReadsWithin binary term cursor.old cursor.new result }
    ensures leaf { IfOk result IsLeaf }
{
    let bytes = cursor.sized(4)?;
    bit_string(alloc, bytes, 8)
}

/// The bit string that begins at an offset, with the number of used bits in its last byte. Its unused bits are passed
/// over.
pub(crate) fn read_bit_binary(
    alloc: Global,
    cursor: &mut Cursor<'_>,
    term: u64,
) -> Result<Term, EtfFault>
    ensures reads { ReadsWithin bit_binary term cursor.old cursor.new result }
    ensures leaf { IfOk result IsLeaf }
{
    let length = cursor.number(4)?;
    let used = cursor.byte()?;
    if !may_be_used(length, used) {
        return Err(EtfFault::BadBits(term));
    }
    let bytes = cursor.take(length as usize)?;
    bit_string(alloc, bytes, used)
}

/// Whether so many bits of the last of so many bytes may be used.
fn may_be_used(count: u32, used: u8) -> bool
    ensures { result ≡ may_use count used }
{
    count > 0 && used > 0 && used <= 8
}

/// The bit string of these bytes, of which the last has so many used bits.
fn bit_string(alloc: Global, bytes: &[u8], used: u8) -> Result<Term, EtfFault>
    requires used { MayUse bytes.now used }
    requires short { length bytes.now < 2 ^ 32 }
    ensures ok { IfOk result (λ t. t ≡ bits (bits_of bytes.now used)) }
    ensures err { IfErr result (λ fault. fault ≡ EtfFault.Memory) }
{
    let mut copied = ByteList::new(alloc);
    copied.extend_from_slice(bytes)?;
    Ok(within_limits(Term::bits(copied, used))?)
}
