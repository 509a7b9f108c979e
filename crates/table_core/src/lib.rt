//! A table over its file.
//!
//! Stands on `flush_engine` for the book of a file and its flush, on `repair_scan` for what a file holds, and on `slot_table`,
//! `buddy_space` and `write_cache`, which keep the parts of a book. A `Table` is opened by `open_table`, which makes the file,
//! refuses it or repairs it, and at each moment keeps its table; `sync` and `close` write what waits, and at each moment of them
//! every key has what it had in the file or what it has in the table. `opened_book` gives the book of a file that was scanned.
#![tactic(auto)]

pub use fault::TableFault;
pub use file_model::Located;
pub use flush_engine::Book;
pub use open_fault::OpenFault;
pub use opening::opened_book;
pub use run_model::{Access, OpenOptions, Repair};
pub use slot_table::Entries;
pub use std::alloc::AllocError as Memory;
pub use table::Table;

mod below;
mod closing;
mod fault;
mod flushing;
mod loading;
mod open_book;
mod open_fault;
mod opening;
mod reading;
mod repairing;
mod table;
#[cfg(test)]
mod tests;
