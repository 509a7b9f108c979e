//! Definitions of what a table is, which the crates above cite: its kind, its objects, what each operation makes of
//! them and which keys it touches, the order of a walk, and what the ledger is told of a key.
//!
//! It stands on `term_model`, on `etf_model` for the canonical spelling of keys and lists, and on `space_model` for the
//! ledger and the slot of a hash. It promises laws of these definitions, and compares them with worked rows.
#![tactic(auto)]

pub use laws::{a_set_has_one_object_of_a_key, the_objects_of_a_key_ascend};

pub mod kind_laws;
mod laws;
pub mod operation_laws;
pub mod operation_rows;
pub mod rows;
pub mod walk_laws;
pub mod walk_rows;
