//! The slots of a table's keys, and what is known of each key's block.
//!
//! Stands on the definitions of `space_model` and on the types of `file_model`. `slot_of` is the slot of a hash among any
//! number of slots, and `Entries` is a list of entries. A `Directory` has the entries of a table, each in its slot; the number
//! of slots grows, and a bucket is split for each new one.
#![tactic(auto)]

pub use directory::Directory;
pub use entries::Entries;
pub use file_model::Entry;
pub use slots::slot_of;
pub use std::alloc::AllocError as Memory;

mod bucket;
mod buckets;
mod directory;
mod entries;
pub mod laws;
mod slots;
#[cfg(test)]
mod tests;
