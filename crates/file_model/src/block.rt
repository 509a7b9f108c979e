//! A block that is to be written.
use dets_term::ByteList;

/// The bytes of a block of 2 to the power `exp` units, with its head in front, and how many objects it has.
#[derive(Drop)]
pub struct Packed {
    pub exp: u8,
    pub count: u32,
    pub block: ByteList,
}
