//! Lists of bytes.
ghost use Rattle.std.specs.Prelude.{◌≡◌, ◌≤◌, ◌<◌, ◌^◌, suc, length, IfOk, IfErr};
ghost use Rattle.dets_term.specs.TermValue.{depth};
ghost use Rattle.etf_model.specs.Layout.{integers};
ghost use Rattle.etf_model.specs.Spelling.{string};
ghost use Rattle.etf_codec.specs.Reads.{ReadsWithin};

use crate::EtfFault;
use crate::cursor::Cursor;
use dets_term::{Term, TermList, within_limits};
use std::alloc::Global;

/// The list of bytes that begins at an offset, below which so many levels are left.
pub(crate) fn read_string(
    alloc: Global,
    cursor: &mut Cursor<'_>,
    levels: u32,
    term: u64,
) -> Result<Term, EtfFault>
    ensures reads { ReadsWithin (string levels) term cursor.old cursor.new result }
    ensures shallow { IfOk result (λ t. depth t ≤ suc levels) }
{
    let count = cursor.count(2, levels, term)?;
    let bytes = cursor.take(count as usize)?;
    list_of_bytes(alloc, bytes)
}

/// The list of these bytes as integers.
fn list_of_bytes(alloc: Global, bytes: &[u8]) -> Result<Term, EtfFault>
    requires { length bytes.now < 2 ^ 32 }
    ensures ok { IfOk result (λ t. t ≡ integers bytes.now) }
    ensures err { IfErr result (λ fault. fault ≡ EtfFault.Memory) }
{
    let mut parts = TermList::new(alloc);
    for byte in bytes {
        parts.push(Term::int(i128::from(*byte)))?;
    }
    Ok(within_limits(Term::list(parts))?)
}
