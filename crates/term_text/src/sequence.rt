//! Characters in UTF-8.
ghost use Rattle.std.specs.Prelude.{◌≡◌, nat_lt};
ghost use Rattle.bstr.specs.Utf8.{lead_len};
ghost use Rattle.text_model.specs.Reader.{sequence};
ghost use Rattle.term_text.specs.Sequences.{sequence_of};

use bstr::decode_utf8;

/// What some bytes are.
#[derive(Clone, Copy)]
pub(crate) enum Bytes {
    /// The bytes of a character.
    Whole(char),
    /// The first bytes of one.
    Part,
    /// No character begins so.
    Wrong,
}

/// What some bytes are, of which all but the last are a part of a character.
pub(crate) fn sequence(bytes: &[u8]) -> Bytes
    ensures { sequence_of result ≡ sequence bytes.now }
{
    match decode_utf8(bytes) {
        (Some(character), _) => Bytes::Whole(character),
        (None, size) => match bytes.first() {
            Some(lead) if size == bytes.len() && leads(*lead) => Bytes::Part,
            _ => Bytes::Wrong,
        },
    }
}

/// Whether a character of several bytes begins with this one.
fn leads(byte: u8) -> bool
    ensures { result ≡ nat_lt 1 (lead_len byte) }
{
    0xC2 <= byte && byte <= 0xF4
}
