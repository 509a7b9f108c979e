//! Definitions of Erlang's terms, which the crates above cite: values, depth, limits, order, keys of objects, what
//! building a term answers, and a hash.
//!
//! The lowest crate of terms; it stands on std alone. It promises laws of these definitions, and compares them with
//! worked rows. Its types are those that definitions name: `Kind` and `TermFault`.
#![tactic(auto)]

pub use kind::Kind;
pub use laws::{
    pairs_by_key_are_the_same_pairs_in_order, same_decides, terms_are_in_a_total_order,
    terms_that_compare_equal_are_equal,
};
pub use term_fault::TermFault;

mod kind;
mod laws;
pub mod rows;
mod term_fault;
