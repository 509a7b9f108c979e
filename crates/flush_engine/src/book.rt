//! What is known of a table's file in memory.
use buddy_space::Space;
use file_model::Located;
use slot_table::Directory;
use write_cache::WriteCache;

/// The header of a file and where it was found, the units that are free, the newest block of each key, and the keys that
/// wait for the next flush.
#[derive(Drop)]
pub struct Book {
    pub place: Located,
    pub space: Space,
    pub directory: Directory,
    pub cache: WriteCache,
}
