//! The writes that wait for the next flush, one for each key, in the order in which the keys were first touched.
//!
//! Stands on `indexmap`, which keeps the keys in this order, on the types of `file_model`, and on the ledger of
//! `space_model`. A `WriteCache` has the last state of each key; how many keys there are and how long their blocks are
//! together tells whether the ledger has reached its limit.
#![tactic(auto)]

pub use file_model::{Entry, Packed};
pub use pending::Pending;
pub use std::alloc::AllocError as Memory;
pub use write_cache::WriteCache;

pub mod laws;
mod pending;
#[cfg(test)]
mod tests;
mod write_cache;
