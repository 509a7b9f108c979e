//! All objects of one key as the bytes of a block, both ways.
//!
//! Stands on `etf_codec`, which writes and reads the list of the objects, and on the definitions of `file_model`. `pack`
//! makes the smallest block with room for them; a block that it made stands in a file with these objects. `unpack` gives
//! the objects exactly where a payload is a list that the kind of a table allows for one key, and else the first reason why
//! it is none.
#![tactic(auto)]

pub use dets_term::TermList as Objects;
pub use fault::{BlockFault, PackFault};
pub use file_model::Packed;
pub use packing::pack;
pub use single::single_key;
pub use std::alloc::AllocError as Memory;
pub use unpacking::{KeyBlock, unpack};

mod fault;
mod judging;
pub mod laws;
mod packing;
mod single;
#[cfg(test)]
mod tests;
mod unpacking;
