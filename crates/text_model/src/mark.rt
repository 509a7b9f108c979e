//! Punctuation.

/// A punctuation mark of printed terms.
#[derive(Clone, Copy, Debug, PartialEq, Eq)]
pub enum Mark {
    /// `{`
    OpenTuple,
    /// `#{`
    OpenMap,
    /// `}`, of a tuple or a map
    CloseBrace,
    /// `[`
    OpenList,
    /// `]`
    CloseList,
    /// `<<`
    OpenBits,
    /// `>>`
    CloseBits,
    /// `|`
    Bar,
    /// `,`
    Comma,
    /// `=>`
    Arrow,
    /// `:`
    Colon,
    /// `.`
    FullStop,
}
