//! The numbers of the External Term Format, by the names of its chapter of the ERTS User's Guide, without their `_EXT`.

/// The byte in front of a spelling.
pub const VERSION: u8 = 131;

/// Behind that byte, in front of a compressed term.
pub const COMPRESSED: u8 = 80;

// ---- the tags of terms

/// An integer of one byte.
pub const SMALL_INTEGER: u8 = 97;

/// An integer of four bytes.
pub const INTEGER: u8 = 98;

/// An integer by its sign and magnitude, whose length has one byte.
pub const SMALL_BIG: u8 = 110;

/// The same with a length of four bytes.
pub const LARGE_BIG: u8 = 111;

/// An atom in Latin-1, whose length has two bytes.
pub const ATOM: u8 = 100;

/// The same with a length of one byte.
pub const SMALL_ATOM: u8 = 115;

/// An atom in UTF-8, whose length has two bytes.
pub const ATOM_UTF8: u8 = 118;

/// The same with a length of one byte.
pub const SMALL_ATOM_UTF8: u8 = 119;

/// A tuple, whose number of elements has one byte.
pub const SMALL_TUPLE: u8 = 104;

/// The same with a number of four bytes.
pub const LARGE_TUPLE: u8 = 105;

/// The empty list.
pub const NIL: u8 = 106;

/// A list of integers of one byte each.
pub const STRING: u8 = 107;

/// A list by its elements and its tail.
pub const LIST: u8 = 108;

/// A bit string of whole bytes.
pub const BINARY: u8 = 109;

/// A bit string with the number of used bits in its last byte.
pub const BIT_BINARY: u8 = 77;

/// A map.
pub const MAP: u8 = 116;

// ---- the tags of terms that are only passed over

/// A float of eight bytes.
pub const NEW_FLOAT: u8 = 70;

/// A process, with a creation of one byte.
pub const PID: u8 = 103;

/// The same with a creation of four bytes.
pub const NEW_PID: u8 = 88;

/// A port, with a creation of one byte.
pub const PORT: u8 = 102;

/// The same with a creation of four bytes.
pub const NEW_PORT: u8 = 89;

/// The same with a number of eight bytes.
pub const V4_PORT: u8 = 120;

/// A reference, with a creation of one byte.
pub const NEW_REFERENCE: u8 = 114;

/// The same with a creation of four bytes.
pub const NEWER_REFERENCE: u8 = 90;
