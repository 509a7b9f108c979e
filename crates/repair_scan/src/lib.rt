//! The scan of a table's file: which blocks are taken, why the other open gates are rejected, and what a check tells.
//!
//! Stands on `block_disk` for what is read of a file, on `key_block` for the objects of a block, and on the definitions of
//! `file_model`. `scan` gives the taken blocks and the rejects of every file with a header that can be read, whatever wrote
//! it; `close_rejects` closes the gates of these rejects and leaves the table at each moment; `check` tells what a file
//! holds, whether it is sound and whether it needs repair.
#![tactic(auto)]

pub use block_disk::Located;
pub use checking::check;
pub use closing::close_rejects;
pub use fault::{CheckFault, ScanFault};
pub use file_model::{Reason, Reject};
pub use found::Found;
pub use rejects::Rejects;
pub use report::{IndexState, Report, needs_repair};
pub use scanning::scan;
pub use slot_table::Entries;
pub use std::alloc::AllocError as Memory;

mod candidate;
mod checking;
mod closing;
mod closing_writes;
mod fault;
mod found;
mod judge;
pub mod laws;
mod rejects;
mod report;
mod scanning;
mod segment;
mod standing;
mod taken_keys;
#[cfg(test)]
mod tests;
