//! What a scan finds.
use crate::{Entries, Rejects};

/// The taken blocks of a file, and its other open gates, both by ascending unit.
#[derive(Drop)]
pub struct Found {
    pub entries: Entries,
    pub rejects: Rejects,
}
