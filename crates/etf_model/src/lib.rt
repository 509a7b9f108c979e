//! Definitions of terms in the External Term Format, which the crates above cite: what bytes mean, the canonical
//! spelling of a term, what is passed over, and what the bytes of a stream of spellings mean to a feed. Beside them stand
//! the type of faults, `EtfFault`, and the numbers of tags.
//!
//! It stands on `feed_model` and `dets_term`, promises laws of these definitions, and compares them with worked rows. What bytes mean is in
//! `specs/Spelling.antt`, put together by `specs/Format.antt`.
#![tactic(auto)]

pub use fault::EtfFault;

pub mod decoding_laws;
pub mod encoding_laws;
mod fault;
pub mod feed_laws;
pub mod laws;
pub mod rows;
pub mod skipping_laws;
pub mod tags;
