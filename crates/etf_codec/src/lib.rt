//! Terms in the External Term Format, both ways.
//!
//! Stands on the definitions of `etf_model`, on `dets_term`, and on `bstr` for UTF-8. `encode` writes the canonical
//! spelling of a term. `decode` reads each spelling, and `skip` passes over terms of more kinds; both are exact to the
//! first byte that breaks a rule. `TermFeed`, on `bytes`, takes them from a stream that comes in pieces.
#![tactic(auto)]

pub use decoding::decode;
pub use encoding::{encode, encode_list_behind};
pub use etf_model::EtfFault;
pub use feed::TermFeed;
pub use feed_model::{Fed, Feed};
pub use skipping::skip;
pub use std::alloc::AllocError as Memory;

mod atoms;
mod big_integer;
mod bits;
mod cursor;
mod decoding;
mod encoding;
mod feed;
mod frame;
mod head;
mod joining;
mod leaves;
mod numbers;
mod skipping;
mod strings;
mod tags;
mod term_reader;
