/// Which objects a table may hold.
#[derive(Clone, Copy, Debug, PartialEq, Eq)]
pub enum Kind {
    /// At most one object for each key.
    Set,
    /// Any objects of a key, each once.
    Bag,
    /// Any objects of a key, also equal ones.
    DuplicateBag,
}
