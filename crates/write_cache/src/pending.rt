//! What waits for the next flush of one key.
ghost use Rattle.std.specs.Prelude.{◌≡◌};

use crate::{Entry, Packed};

/// The new block of a key, its first unit and the hash of the key, and the block of the key that stands in the file. A key
/// that has no object left has no block.
#[derive(Drop)]
pub struct Pending {
    pub block: Option<Packed>,
    pub unit: u32,
    pub hash: u32,
    pub old: Option<Entry>,
}

impl Pending {
    ghost use Rattle.write_cache.specs.PendingState.{block_length};

    /// The bytes of the new block, 0 where there is none.
    pub(crate) fn block_length(&self) -> usize
        ensures { result ≡ block_length self.now }
    {
        match &self.block {
            Some(packed) => packed.block.len(),
            None => 0,
        }
    }
}
