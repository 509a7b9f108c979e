//! Why a text is refused.
ghost use Rattle.std.specs.Prelude.{◌≡◌};
ghost use Rattle.text_model.specs.declared.fault.TextFault.TheVariants.{Memory as OutOfMemory};

use dets_term::Memory;
use std::alloc::AllocFailed;

/// The rule that a text breaks. Beside each stands what its offset is that of.
#[derive(Clone, Copy, Debug, PartialEq, Eq)]
pub enum TextWhy {
    /// Bytes that begin no token, a token that cannot stand there, a full stop that is no end, a bad escape, an atom of more
    /// than 255 characters, a segment out of range: the token.
    BadToken,
    /// Bytes in quotes or in a comment that are not UTF-8: the first of the sequence.
    BadUtf8,
    /// A term at level 257: its first token; for a code point, the string.
    Depth,
    /// An integer that 128 bits do not hold: the token.
    IntegerRange,
    /// A key that stands in its map already: its first token.
    RepeatedKey,
    /// The input ends inside a token or a term, or behind a term before its full stop: the length of the input.
    Unfinished,
    /// 16,777,216 bytes from a term's first token on and no full stop among them: that token.
    TooLong,
}

/// Why a feed of texts does not answer.
#[derive(Clone, Copy, Debug, PartialEq, Eq)]
pub enum TextFault {
    /// The offset in the stream, and the rule that is broken.
    Syntax(u64, TextWhy),
    Memory,
}

impl From<Memory> for TextFault {
    ghost from_gives = { λ _ e. e ≡ OutOfMemory };

    fn from(_error: Memory) -> TextFault {
        TextFault::Memory
    }
}

impl<T: Drop> From<AllocFailed<T>> for TextFault {
    ghost from_gives = { λ _ e. e ≡ OutOfMemory };

    fn from(_error: AllocFailed<T>) -> TextFault {
        TextFault::Memory
    }
}
