//! The header, gates and blocks of a table's file, over any host.
//!
//! Stands on `host_model` for the calls on a disk and what a stop leaves, and on `file_model` for what the bytes of a file
//! mean. Each call that writes says which bytes it puts in doubt; a header change leaves the old header or the new one at
//! each moment. No call takes memory, and none fails but where a call on the disk did.
#![tactic(auto)]

mod block_head;
mod change;
mod copies;
mod fault;
mod header_bytes;
mod making;
mod places;
mod reading;
mod segment;
mod step;
mod units;
mod zero_pages;

pub use block_head::{head_bytes, head_in};
pub use change::change_header;
pub use fault::HeadFault;
pub use file_model::{FileState, Head, Located, Packed, Unreadable};
pub use making::make;
pub use places::{CLOSED, OPEN, gate_at, unit_at};
pub use reading::read_header;
pub use segment::zero_segment;
pub use units::{
    close_gate, open_gate, read_gates, read_head, read_payload, read_units, write_body,
};

#[cfg(test)]
mod tests;
