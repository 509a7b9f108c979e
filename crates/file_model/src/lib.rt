//! Definitions of what the bytes of a table's file mean, which the crates above cite: the layout, the header, what
//! stands behind open gates, which blocks are taken, the table, and which files are in order. Beside them stand the types
//! that they name.
//!
//! It stands on `table_model` and `etf_model`, on `dets_term` for lists of bytes, and on `host_model` for what writes leave
//! of a file. It promises laws of these definitions, and compares them with worked rows.
#![tactic(auto)]

pub use block::Packed;
pub use entry::Entry;
pub use head::{FileState, Head, Located, Unreadable};
pub use reject::{Reason, Reject};

mod block;
mod entry;
pub mod flush_laws;
mod head;
pub mod laws;
pub mod packing_laws;
mod reject;
pub mod repair_laws;
pub mod rows;
pub mod write_laws;
