//! What printed terms mean: definitions and their laws.
//!
//! Stands on `dets_term`, `etf_model` and `bstr`. A term has many texts, which are defined by a grammar over tokens; bytes have one
//! script, which is the list of the terms that stand in them and what stands behind the last. `term_text` has the code.
#![tactic(auto)]

pub use fault::{TextFault, TextWhy};
pub use mark::Mark;

mod fault;
pub mod feed_laws;
pub mod laws;
mod mark;
pub mod printed_laws;
pub mod rows;
