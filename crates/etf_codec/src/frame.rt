use dets_term::{MapPairs, Term, TermList};

/// Which part of a begun term is read next, and what stands before it.
#[derive(Drop)]
pub(crate) enum Frame {
    /// An element of a tuple, with so many to come behind it.
    Element(u32, TermList),
    /// An element of a list.
    Item(u32, TermList),
    /// The tail of a list.
    Tail(TermList),
    /// A key of a map, with so many pairs to come behind its own.
    Key(u32, MapPairs),
    /// The value of this key.
    Value(u32, MapPairs, Term),
}

/// A begun term, with the offset of its tag.
#[derive(Drop)]
pub(crate) struct Begun {
    pub(crate) start: u64,
    pub(crate) frame: Frame,
}
