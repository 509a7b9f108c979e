//! The terms that are open behind some tokens of a printed term, and what one more token does.
//!
//! Stands on `text_model`, which says what tokens do, on `dets_term`, and on `etf_model` for the list that a string is. A `Nest`
//! takes one token after the other, each with the offset that it begins at. It builds each term when its closing mark comes, and
//! refuses a token that may not stand there with the offset and the reason of the fault. `Integer` and `Characters` are the parts
//! of a token that may go on.
#![tactic(auto)]

pub use characters::Characters;
pub use integer::Integer;
pub use nest::{MAX_CHARACTERS, Nest};
pub use std::alloc::AllocError as Memory;

mod changing;
mod characters;
mod closing;
mod integer;
mod nest;
mod segments;
mod strings;
