//! Erlang's terms as text, both ways.
//!
//! Stands on `text_model`, which says what printed terms mean, on `feed_model` for feeds, on `text_nest`, which keeps the terms that are open, on `dets_term`,
//! `bstr`, `bytes`, `arrayvec` and `itoa`. `print` writes the printed form of a term. `TextFeed` reads printed terms, each with its
//! full stop, from a stream that comes in any pieces.
#![tactic(auto)]

pub use feed::TextFeed;
pub use feed_model::{Fed, Feed};
pub use printing::print;
pub use std::alloc::AllocError as Memory;
pub use text_model::{TextFault, TextWhy};

mod digits;
mod feed;
mod lexeme;
mod print_bits;
mod printing;
mod quoted;
mod reader;
mod sequence;
