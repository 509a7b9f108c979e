//! A token that may go on, by what was read of it.

use crate::digits::Digits;
use arrayvec::ArrayVec;
use text_model::Mark;
use text_nest::{Characters, Integer};

/// The first bytes of a character in UTF-8.
pub(crate) type Cut = ArrayVec<u8, 4>;

/// What stands between two tokens, or a token that may go on, with its offset.
#[derive(Drop)]
pub(crate) enum Lexeme {
    Between,
    /// A comment, with the first bytes of a character.
    Comment(Cut),
    /// The first byte of a mark of two.
    First(u64, Mark),
    Minus(u64),
    Number(u64, Integer),
    Name(u64, Characters),
    InQuotes(Quoted),
}

/// What stands between two quotes.
#[derive(Clone, Copy, Drop)]
pub(crate) enum Quotes {
    Atom,
    String,
}

/// An atom or a string in quotes: its whole characters, and what was read of the next one.
#[derive(Drop)]
pub(crate) struct Quoted {
    pub(crate) start: u64,
    pub(crate) quotes: Quotes,
    pub(crate) characters: Characters,
    pub(crate) partial: Partial,
}

/// A character in quotes that may go on.
#[derive(Drop)]
pub(crate) enum Partial {
    /// None is begun.
    Nothing,
    Cut(Cut),
    Backslash,
    /// One or two octal digits, by their value and their number.
    Octal(u8, u8),
    /// Behind `\x`.
    Hexadecimal,
    /// Behind `\x` and a digit of this value.
    Half(u8),
    /// Behind `\x{` and digits.
    Braced(Digits),
}
