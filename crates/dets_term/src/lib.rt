//! Erlang's terms: integers, atoms, tuples, maps, lists and bit strings, with depth, order, keys and a hash.
//!
//! It stands on the definitions of `term_model` and passes them on. A `Term` keeps its limits at every moment: at most
//! 256 levels, fewer than 2^32 parts or bytes in each node, at most 255 characters in an atom. Contracts see a
//! `Term` as a `TermValue` of `term_model`.
#![tactic(auto)]

pub use byte_list::ByteList;
pub use hash::hash_bytes;
pub use map_pairs::MapPairs;
pub use order::{cmp, eq};
pub use pair_list::PairList;
pub use std::alloc::AllocError as Memory;
pub use term::{Node, Term, key_of, within_limits};
pub use term_list::TermList;
pub use term_model::{
    Kind, TermFault, pairs_by_key_are_the_same_pairs_in_order, same_decides,
    terms_are_in_a_total_order, terms_that_compare_equal_are_equal,
};
pub use text::Text;

mod byte_list;
mod comparing;
mod hash;
mod map_pairs;
mod order;
mod pair_list;
mod term;
mod term_list;
mod text;
