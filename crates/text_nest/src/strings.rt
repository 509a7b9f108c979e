//! Strings as terms and as segments.
ghost use Rattle.std.specs.Prelude.{◌≡◌, ◌<◌, ◌^◌, ◌++◌, cond, nat_lt, length, Some, None, IfOk};
ghost use Rattle.std.specs.Str.{chars};
ghost use Rattle.etf_model.specs.Layout.{integers};
ghost use Rattle.text_model.specs.Characters.{each};

use crate::Memory;
use crate::closing::list_of;
use dets_term::{ByteList, Term, TermList, Text};
use std::alloc::Global;

/// The list of the code points of a text.
pub(crate) fn code_points(alloc: Global, text: &Text) -> Result<Term, Memory>
    requires { length text.now < 2 ^ 31 }
    ensures { IfOk result (λ term. term ≡ integers text.now) }
{
    let mut parts = TermList::new(alloc);
    for character in text.as_str().chars() {
        parts.push(Term::int(i128::from(u32::from(character))))?;
    }
    list_of(parts)
}

/// These bytes and then the characters of a text; `None` where one of them is no byte.
pub(crate) fn bytes_with_all(bytes: ByteList, text: &str) -> Result<Option<ByteList>, Memory>
    ensures { IfOk result (λ more. more ≡ cond (each (λ c. nat_lt c 256) (chars text.now)) (Some (bytes ++ chars text.now)) None) }
{
    let mut bytes = bytes;
    let mut are_bytes = true;
    for character in text.chars() {
        match u8::try_from(u32::from(character)) {
            Ok(byte) => bytes.push(byte)?,
            Err(_) => are_bytes = false,
        }
    }
    if are_bytes { Ok(Some(bytes)) } else { Ok(None) }
}
