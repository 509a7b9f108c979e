//! The header of a table's file.
use term_model::Kind;

/// Whether a file was closed.
#[derive(Clone, Copy, Debug, PartialEq, Eq)]
pub enum FileState {
    Closed,
    Dirty,
}

/// What the current copy of the header says.
#[derive(Clone, Copy, Debug, PartialEq, Eq)]
pub struct Head {
    pub version: u8,
    pub state: FileState,
    pub kind: Kind,
    pub keypos: u32,
    pub segments: u32,
    pub max_segments: u32,
    /// The first unit of the index.
    pub index: Option<u32>,
}

/// The header of a file and where it was found.
#[derive(Clone, Copy, Debug, PartialEq, Eq)]
pub struct Located {
    pub head: Head,
    /// Whether the second copy is the current one.
    pub second: bool,
    /// Whether the gate of the other copy is open too.
    pub other_gate: bool,
    /// How many segments of the header lie wholly in the file.
    pub whole: u32,
}

/// Why a file has no header that can be read.
#[derive(Clone, Copy, Debug, PartialEq, Eq)]
pub enum Unreadable {
    /// It is no table's file: no copy is current, or one of its fields is out of range.
    NotDets,
    /// The current copy has this version.
    Version(u8),
}
