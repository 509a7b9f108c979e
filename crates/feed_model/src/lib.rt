//! Definitions of a feed of terms, which takes them from the front of bytes that come in pieces: what it shows and answers, its
//! calls one behind the other, and what a whole stream of bytes gives, whatever the pieces are. All of it is over a meaning of bytes,
//! which says what stands in front of them. Beside the definitions stand the lemmas that hold for every meaning that is steady, the
//! trait `Feed` of such feeds, and the type of their answers, `Fed`.
//!
//! It stands on `dets_term`. The crates above give the meanings, and state the laws for each.
#![tactic(auto)]

pub use fed::Fed;
pub use feed::Feed;

mod fed;
mod feed;
