//! The options of an opening.
use term_model::Kind;

/// What a table is opened for.
#[derive(Clone, Copy, Debug, PartialEq, Eq)]
pub enum Access {
    Read,
    ReadWrite,
}

/// When a file is repaired at its opening.
#[derive(Clone, Copy, Debug, PartialEq, Eq)]
pub enum Repair {
    /// Where it needs repair.
    Yes,
    /// Never: a file that needs repair is not opened.
    No,
    /// In any case.
    Force,
}

/// How a table is opened.
#[derive(Clone, Copy, Debug, PartialEq, Eq)]
pub struct OpenOptions {
    pub kind: Kind,
    /// The place of the key in an object, from 1 to 65,535.
    pub keypos: u32,
    pub access: Access,
    pub repair: Repair,
    /// How many segments a file that is made may have, from 1 to 8,000.
    pub max_segments: u32,
}
