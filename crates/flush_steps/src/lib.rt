//! The steps by which a flush writes to a table's file, each a function of its own over any host.
//!
//! Stands on `host_model` for the calls on a disk and what a stop leaves, on `block_disk` for the parts of a file, on
//! `write_cache` for what waits, and on the definitions of `file_model` and `book_model`. Each step begins and ends with a
//! settled host, and says which bytes a stop may have torn meanwhile. No call takes memory, and none fails but where a call on
//! the disk did.
#![tactic(auto)]

pub use bodies::write_bodies;
pub use gates::{close_gates, open_gates};
pub use preparing::{mark_dirty, prepare};
pub use segments::add_segments;
pub use writing::write_blocks;

mod bodies;
mod gates;
pub mod laws;
mod preparing;
mod segments;
mod sparse;
mod writing;
