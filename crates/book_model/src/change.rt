//! What a command changes.
use dets_term::ByteList;
use write_cache::{Entry, Packed};

/// A touched key, as the bytes of its canonical spelling, with its hash, its entry in the directory, and its new block. A
/// key that has no object left has no block.
#[derive(Drop)]
pub struct Change {
    pub key: ByteList,
    pub hash: u32,
    pub old: Option<Entry>,
    pub next: Option<Packed>,
}
